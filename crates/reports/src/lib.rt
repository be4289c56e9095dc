//! What the program prints of a store and of moments: as records, as lines for people, and as JSON.
#![tactic(auto)]

mod draft;
mod formatting;
mod gaps_text;
mod headings;
mod info_json;
mod info_text;
mod moments_text;
mod values_text;
mod wide_number;
mod zones_text;

pub use gaps_text::push_gap;
pub use headings::{
    Heading, OF_FEATURE, OF_RECTANGLE, OF_ZONE, push_columns, push_dwell_fields,
    push_feature_fields, push_gap_fields, push_heading,
};
pub use info_json::push_json;
pub use info_text::{StoreReport, push_lines};
pub use moments_text::{Frame, push_dwells, push_label, push_stays, push_visits};
pub use values_text::push_valued_stays;
pub use zones_text::{
    ZoneFrame, push_valued_zone_stays, push_zone_features, push_zone_stays, push_zone_visits,
};
