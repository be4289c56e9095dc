//! What a store holds, as JSON for programs.
use crate::draft::Draft;
use crate::info_text::{StoreReport, bytes_of, places};
use legs::{BookHead, Box3};
use mfcsv::Column;
use trajdb::RunFault;

impl Draft {
    /// Appends a character of a string of JSON.
    fn push_escaped(self, c: char) -> Draft {
        match c {
            '"' => self.push("\\\""),
            '\\' => self.push("\\\\"),
            ' '.. => self.push_char(c),
            _ => self
                .push("\\u00")
                .push_hex(c as u32 / 16)
                .push_hex(c as u32 % 16),
        }
    }

    /// Appends a text as a string of JSON.
    fn push_string(self, said: &str) -> Draft {
        let mut json = self.push("\"");
        for c in said.chars() {
            json = json.push_escaped(c);
        }
        json.push("\"")
    }

    /// Appends a comma, the key of a member and a colon.
    fn push_key(self, key: &str) -> Draft {
        self.push(",\"").push(key).push("\":")
    }

    /// Appends members whose value is null.
    fn push_nulls(self, keys: &[&str]) -> Draft {
        let mut json = self;
        for key in keys {
            json = json.push_key(*key).push("null");
        }
        json
    }

    /// Appends a member whose value is a number.
    fn push_number_member(self, key: &str, number: u64) -> Draft {
        self.push_key(key).push_number(number)
    }

    /// Appends a member whose value is a text.
    fn push_string_member(self, key: &str, said: &str) -> Draft {
        self.push_key(key).push_string(said)
    }

    /// Appends a member whose value is an instant, in milliseconds.
    fn push_instant_member(self, key: &str, millis: i64) -> Draft {
        self.push_key(key).push("\"").push_moment(millis).push("\"")
    }

    /// Appends columns as an array of objects.
    fn push_columns(self, columns: &[Column]) -> Draft {
        let mut json = self.push("[");
        for place in 0..columns.len() {
            json = json
                .push(if place == 0 { "{" } else { ",{" })
                .push("\"name\":")
                .push_string(columns[place].name.as_str())
                .push_string_member("type", columns[place].kind.as_str())
                .push("}");
        }
        json.push("]")
    }

    /// Appends the members of what the first file said of all; without one, they are null.
    fn push_file_members(self, head: Option<&BookHead>) -> Draft {
        match head {
            Some(head) => self
                .push_string_member("crs", head.crs.as_str())
                .push_number_member("dimension", places(head.dimension))
                .push_instant_member("start", head.base.millis())
                .push_key("columns")
                .push_columns(head.columns.as_slice()),
            None => self.push_nulls(&["crs", "dimension", "start", "columns"]),
        }
    }

    /// Appends the members of the box over all legs; without a leg, they are null.
    fn push_box_members(self, extent: Option<&Box3>) -> Draft {
        match extent {
            Some(bounds) => self
                .push_instant_member("first", bounds.t_min)
                .push_instant_member("last", bounds.t_max)
                .push_key("extent")
                .push("[")
                .push_corners(bounds, ",")
                .push("]"),
            None => self.push_nulls(&["first", "last", "extent"]),
        }
    }
}

/// Appends one object of JSON, and a line end; without a file, and without a leg, some members are null.
pub fn push_json(text: &mut Vec<u8>, said: &StoreReport<'_>) -> Result<(), RunFault> {
    Draft::of(text)
        .push("{\"version\":")
        .push_number(said.version as u64)
        .push_string_member("state", "finished")
        .push_number_member("pages", said.pages as u64)
        .push_number_member("bytes", bytes_of(said.pages))
        .push_file_members(said.head)
        .push_number_member("legs", said.legs)
        .push_number_member("features", said.features)
        .push_number_member("most_legs", said.limits.legs())
        .push_number_member("most_features", said.limits.features() as u64)
        .push_box_members(said.extent.as_ref())
        .push("}\n")
        .give(text)
}
