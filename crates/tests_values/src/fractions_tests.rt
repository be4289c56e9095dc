//! Worked values: the greatest numbers, and terms that are not the lowest.
use fractions::{Fraction, Share, Terms, compare, lowest_terms, share_of, sign_at};
use std::cmp::Ordering;
use std::process::Abort;

#[test]
fn greatest(rt: HostRuntime) {
    let most = Fraction {
        num: i128::MAX,
        den: i128::MAX - 1,
    };
    let next = Fraction {
        num: i128::MAX - 1,
        den: i128::MAX - 2,
    };
    let least = Fraction {
        num: i128::MIN,
        den: 1,
    };
    assert!(rt; compare(most, next) == Ordering::Less);
    assert!(rt; compare(next, most) == Ordering::Greater);
    assert!(rt; compare(least, most) == Ordering::Less);
    assert!(rt;
        compare(Fraction { num: -7, den: 3 }, Fraction { num: -14, den: 6 }) == Ordering::Equal
    );
    assert!(rt; sign_at(i128::MAX, -i128::MAX, Fraction { num: 1, den: 1 }) == Ordering::Equal);
    assert!(rt; sign_at(0 - 5, 0, most) == Ordering::Less);
}

#[test]
fn shares(rt: HostRuntime) {
    let most = Fraction {
        num: 10141204801825835211973625643006,
        den: 10141204801825835211973625643007,
    };
    assert!(rt;
        share_of(most, 18446744073709551615)
            == Share {
                whole: 18446744073709551614,
                rest: 10141204801807388467899916091392,
            }
    );
    assert!(rt;
        share_of(Fraction { num: 1, den: 3 }, 60000)
            == Share {
                whole: 20000,
                rest: 0
            }
    );
    assert!(rt; share_of(Fraction { num: 2, den: 7 }, 10) == Share { whole: 2, rest: 6 });
    assert!(rt; share_of(Fraction { num: 7, den: 7 }, 10) == Share { whole: 10, rest: 0 });
}

#[test]
fn terms(rt: HostRuntime) {
    assert!(rt; lowest_terms(84, 126) == Terms { num: 2, den: 3 });
    assert!(rt; lowest_terms(0, 5) == Terms { num: 0, den: 1 });
    assert!(rt; lowest_terms(5, 1) == Terms { num: 5, den: 1 });
}
