//! The messages between a client and a KDC (RFC 4120 5.2.7, 5.4 and 5.9), of a change of a password (RFC 4120 5.7, RFC 3244 2)
//! and of user-to-user authentication.
//!
//! Each record is read and written by its row of a table, as those of `krb_messages` are.
#![tactic(auto)]

mod enc_kdc_rep_part;
mod kdc_proxy;
mod kdc_rep;
mod kdc_req;
mod krb_error;
mod krb_priv;
pub mod laws;
mod pa_data;
mod priv_message;
mod result;
mod tagged;
mod user_to_user;

pub use enc_kdc_rep_part::{EncAsRepPart, EncKdcRepPart, EncTgsRepPart, LastReq, LastReqEntry};
pub use kdc_proxy::KdcProxyMessage;
pub use kdc_rep::{AsRep, KdcRep, TgsRep};
pub use kdc_req::{AsReq, KdcReq, KdcReqBody, TgsReq};
pub use krb_error::KrbError;
pub use krb_messages::serialize_message;
pub use krb_priv::{EncKrbPrivPart, KrbPriv};
pub use pa_data::{
    EtypeInfo2, EtypeInfo2Entry, KerbPaPacRequest, PaData, PaEncTsEnc, PaPacOptions,
};
pub use priv_message::{ApMessage, KrbPrivMessage};
pub use result::{KrbResult, read_result};
pub use user_to_user::{TgtRep, TgtReq};
