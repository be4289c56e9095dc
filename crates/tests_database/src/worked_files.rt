//! The files of worked scripts, and the scripts that write them again.

/// The example of the standard.
pub(crate) const STANDARD: &str = "\
@stboundedby,urn:x-ogc:def:crs:EPSG:6.6:4326,2D,50.23 9.23,50.31 9.27,2012-01-17T12:33:41Z,2012-01-17T12:37:00Z,sec
@columns,mfidref,trajectory,state,xsd:token,\"type code\",xsd:integer
a,10,150,11.0 2.0 12.0 3.0,walking,1
b,10,190,10.0 2.0 11.0 3.0,walking,2
a,150,190,12.0 3.0 10.0 3.0,walking,2
c,10,190,12.0 1.0 10.0 2.0 11.0 3.0,vehicle,1
";

/// The example, cut in its fifth record.
const CUT: &str = "\
@stboundedby,urn:x-ogc:def:crs:EPSG:6.6:4326,2D,50.23 9.23,50.31 9.27,2012-01-17T12:33:41Z,2012-01-17T12:37:00Z,sec
@columns,mfidref,trajectory,state,xsd:token,\"type code\",xsd:integer
a,10,150,11.0 2.0 12.0 3.0,walking,1
b,10,190,10.0 2.0 11.0 3.0,walking,2
a,150,1";

/// Both header lines of the files below, and then these lines.
macro_rules! headed {
    ($lines:literal) => {
        concat!(
            "@stboundedby,local,2D,0 0,0 0,2020-01-01T00:00:00Z,2020-01-02T00:00:00Z,sec\n",
            "@columns,mfidref,trajectory\n",
            $lines
        )
    };
}

/// The same in another unit.
macro_rules! headed_in {
    ($unit:literal, $lines:literal) => {
        concat!(
            "@stboundedby,local,2D,0 0,0 0,2020-01-01T00:00:00Z,2020-01-02T00:00:00Z,",
            $unit,
            "\n@columns,mfidref,trajectory\n",
            $lines
        )
    };
}

/// The same in three dimensions.
macro_rules! headed_in_space {
    ($lines:literal) => {
        concat!(
            "@stboundedby,local,3D,0 0 0,0 0 0,2020-01-01T00:00:00Z,2020-01-02T00:00:00Z,sec\n",
            "@columns,mfidref,trajectory\n",
            $lines
        )
    };
}

/// The example as the database writes it.
macro_rules! written {
    ($front:literal) => {
        concat!(
            $front,
            "@stboundedby,urn:x-ogc:def:crs:EPSG:6.6:4326,2D,10 1,12 3,2012-01-17T12:33:41.000Z,2012-01-17T12:36:51.000Z,sec\n",
            "@columns,mfidref,trajectory,state,xsd:token,type code,xsd:integer\n",
            "a,10,150,11 2 12 3,walking,1\n",
            "b,10,190,10 2 11 3,walking,2\n",
            "a,150,190,12 3 10 3,walking,2\n",
            "c,10,100,12 1 10 2,vehicle,1\n",
            "c,100,190,10 2 11 3,vehicle,1\n"
        )
    };
}

/// A file of names and values with commas, quotes and line ends, as the database writes it.
macro_rules! quoted {
    ($front:literal) => {
        concat!(
            $front,
            "@stboundedby,\"local, \"\"L\"\"\",2D,0 0,1 1,2020-01-01T00:00:00.000Z,2020-01-01T00:00:01.000Z,sec\n",
            "@columns,mfidref,trajectory,\"note, n\",xsd:string\n",
            "\"a, \"\"b\"\"\nc\",0,1,0 0 1 1,\"x, \"\"y\"\"\nz\"\n"
        )
    };
}

/// The files of most scripts below.
pub(crate) const FILES: [(&str, &str); 31] = [
    ("up", headed_in_space!("u,0,1,0 0 5 1 1 6\n")),
    ("still in space", headed_in_space!("s,0,5,7 8 9\n")),
    ("short in space", headed_in_space!("u,0,1,0 0 5 1\n")),
    ("heads in space", headed_in_space!("")),
    (
        "four dimensions",
        "@stboundedby,local,4D,0 0,0 0,2020-01-01T00:00:00Z,2020-01-02T00:00:00Z,sec\n",
    ),
    (
        "no columns",
        "@stboundedby,urn:x-ogc:def:crs:EPSG:6.6:4326,2D,0 0,0 0,2012-01-17T12:33:41Z,2012-01-17T12:37:00Z,sec\n@columns,mfidref,trajectory\na,10,150,11 2 12 3\n",
    ),
    ("S1.csv", STANDARD),
    ("cut.csv", CUT),
    ("quick", headed!("q,0,0.002,0 0 1 1 2 2 3 3\n")),
    ("slow", headed!("q,0,0.003,0 0 1 1 2 2 3 3\n")),
    ("uneven", headed!("u,0,0.005,0 0 1 1 2 2 3 3\n")),
    ("still", headed!("s,0,5,7 8\n")),
    (
        "jump and gap",
        headed!("j,0,1,0 0 1 1\nj,1,2,5 5 6 6\nj,4,5,6 6 7 7\n"),
    ),
    (
        "two",
        headed!("e,0,2,0 0 10 10\nf,0,1,2 2 3 3\nf,1,2,3 3 4 4\ne,2,4,10 10 20 20\n"),
    ),
    (
        "columns",
        "@stboundedby,local,2D,0 0,0 0,2020-01-01T00:00:00Z,2020-01-02T00:00:00Z,sec\n@columns,mfidref,trajectory,x,xsd:token\nk,0,1,0 0,v\n",
    ),
    ("two", STANDARD),
    (
        "odd",
        "\u{feff}@STBOUNDEDBY,local,2d,0 0,0 0,2020-01-01T00:00:00Z,2020-01-02T00:00:00Z\r\n@foliation,x\r\n@Columns,MFIDREF,Trajectory,note,xsd:string\r\n\"a, b\", 0 ,1,0 0 1 1\r\n",
    ),
    (
        "rounded",
        headed!("n,0,1,1.00000005 -1.00000005 -0 100000000.00000004\n"),
    ),
    ("far", headed!("n,0,1,0 0 0 100000000.0000001\n")),
    ("heads", headed!("")),
    ("between", headed!("p,0,1,0 0 10 0\n")),
    ("diagonal", headed!("d,0,10,0 0 10 10\n")),
    ("gap", headed!("g,0,10,0 0 1 0\ng,50,60,1 0 2 0\n")),
    ("jump", headed!("j,0,10,0 0 1 0\nj,10,20,5 5 6 5\n")),
    ("written", written!("")),
    ("quoted", quoted!("")),
    ("minutes", headed_in!("minute", "m,0.5,1,0 0 1 1\n")),
    (
        "instants",
        headed_in!(
            "absolute",
            "m,2020-01-01T00:00:01Z,2020-01-01T00:00:02Z,0 0 1 1\n"
        ),
    ),
    ("hours", headed_in!("hour", "m,1,2,0 0 1 1\n")),
    ("no instants", headed_in!("absolute", "m,1,2,0 0 1 1\n")),
    (
        "S1 goes on",
        "@stboundedby,urn:x-ogc:def:crs:EPSG:6.6:4326,2D,50.23 9.23,50.31 9.27,2012-01-17T12:33:41Z,2012-01-17T12:37:00Z,Minute\n@columns,mfidref,trajectory,state,xsd:token,\"type code\",xsd:integer\nb,4,5,11 3 12 3\n",
    ),
];

/// Databases as files.
pub(crate) const WRITTEN: [(&str, &str); 4] = [
    (
        "load heads\nwrite\n",
        "ok 1\n0,0,0\nok 2\n@stboundedby,local,2D,0 0,0 0,2020-01-01T00:00:00.000Z,2020-01-01T00:00:00.000Z,sec\n@columns,mfidref,trajectory\n",
    ),
    ("load S1.csv\nwrite\n", written!("ok 1\n4,5,3\nok 7\n")),
    ("load written\nwrite\n", written!("ok 1\n5,5,3\nok 7\n")),
    ("load quoted\nwrite\n", quoted!("ok 1\n1,1,1\nok 3\n")),
];
