//! A client's requests to a KDC (RFC 4120, sections 5.2.7 and 5.4.1), and the parts of their records.
//!
//! Each generator's clause gives the whole record, by a definition in `specs/`: `PaDatas` for pre-authentication, `Bodies`
//! for the bodies of requests. Its clause `within` bounds the length of the record, so that a caller can write and send it.
#![tactic(auto)]

mod body;
mod maker;
mod mechs;
mod options;
mod pa_datas;
mod pieces;

pub use body::{as_req_body, generate_as_req, generate_as_req_kdc_body, generate_tgt_req};
pub use maker::Maker;
pub use mechs::get_mech_list;
pub use options::{GenerateAsPaDataOptions, GenerateAsReqOptions, GenerateKeytabPaDataOptions};
pub use pa_datas::{
    generate_pa_datas_for_as_req, generate_pa_datas_for_as_req_with_key, plain_pa_datas,
    timed_pa_datas,
};
pub use pieces::{
    encryption_key, etypes, integer_of, name_of, principal_of, sealed_data, sealed_under,
    three_days_after, whole_second,
};
