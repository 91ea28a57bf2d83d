//! The elements of authorization data (RFC 4120, section 5.2.6), with those inside each AD-IF-RELEVANT.
//!
//! ```text
//! let mut place = 0;
//! while let Some(element) = element_at(alloc, &data, place)? {
//!     if element_type(&element) == Some(128) {} // a PAC ([MS-PAC]), in `element.ad_data`
//!     place += 1;
//! }
//! ```
#![tactic(auto)]

mod elements;
pub mod laws;

pub use elements::{element_at, element_type};
pub use krb_messages::{AuthorizationData, AuthorizationDataElement};
