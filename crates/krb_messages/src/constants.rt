//! The numbers and names of the Kerberos messages, each with the document that assigns it.
//!
//! Numbers that are compared by the octets of their INTEGER (checksum types, authorization data types) are constants of
//! those octets, big-endian, as they are written.

/// The protocol version (`pvno`, `tkt-vno`, `authenticator-vno`; RFC 4120 5.3 and 5.4.1).
pub const KERBEROS_VERSION: u8 = 5;

// Object identifiers, by the octets of their contents.

/// 1.2.840.113554.1.2.2, the Kerberos mechanism (RFC 4121 4.1, RFC 1964 1).
pub const KRB5_OID: [u8; 9] = [0x2a, 0x86, 0x48, 0x86, 0xf7, 0x12, 0x01, 0x02, 0x02];
/// 1.2.840.48018.1.2.2, the same as Windows first spelled it (MS-SPNG 2.2.1, RFC 4559 is its use).
pub const MS_KRB5_OID: [u8; 9] = [0x2a, 0x86, 0x48, 0x82, 0xf7, 0x12, 0x01, 0x02, 0x02];
/// 1.2.840.113554.1.2.2.3, user-to-user (draft-swift-win2k-krb-user2user 3).
pub const USER_TO_USER_OID: [u8; 10] = [0x2a, 0x86, 0x48, 0x86, 0xf7, 0x12, 0x01, 0x02, 0x02, 0x03];

// Token ids of framed messages.

/// An AP-REQ follows (RFC 4121 4.1).
pub const AP_REQ_TOKEN_ID: [u8; 2] = [0x01, 0x00];
/// An AP-REP follows (RFC 4121 4.1).
pub const AP_REP_TOKEN_ID: [u8; 2] = [0x02, 0x00];
/// A TGT-REQ follows (draft-swift-win2k-krb-user2user 3).
pub const TGT_REQ_TOKEN_ID: [u8; 2] = [0x04, 0x00];
/// A TGT-REP follows (draft-swift-win2k-krb-user2user 3).
pub const TGT_REP_TOKEN_ID: [u8; 2] = [0x04, 0x01];

// Message types (`msg-type`; RFC 4120 7.5.7).

pub const AS_REQ_MSG_TYPE: u8 = 10;

pub const AS_REP_MSG_TYPE: u8 = 11;

pub const TGS_REQ_MSG_TYPE: u8 = 12;

pub const TGS_REP_MSG_TYPE: u8 = 13;

pub const AP_REQ_MSG_TYPE: u8 = 14;

pub const AP_REP_MSG_TYPE: u8 = 15;
/// RFC 4120 7.5.7 reserves it for the TGT-REQ of user-to-user.
pub const TGT_REQ_MSG_TYPE: u8 = 16;
/// RFC 4120 7.5.7 reserves it for the TGT-REP of user-to-user.
pub const TGT_REP_MSG_TYPE: u8 = 17;

pub const KRB_PRIV_MSG_TYPE: u8 = 21;

pub const KRB_ERROR_MSG_TYPE: u8 = 30;

// Name types (`name-type`; RFC 4120 6.2).

/// A principal by its name, as a user.
pub const NT_PRINCIPAL: u8 = 1;
/// A service and its instance, as `krbtgt`.
pub const NT_SRV_INST: u8 = 2;
/// An enterprise name, whose one component may hold an `@` (RFC 6806 5).
pub const NT_ENTERPRISE: u8 = 10;

// Checksum types, as the octets of their INTEGER.

/// RSA-MD5 without a key (RFC 3961 6.1.1 and 8).
pub const RSA_MD5_CHECKSUM_TYPE: [u8; 1] = [0x07];
/// The checksum of an authenticator that carries flags and channel bindings (RFC 4121 4.1.1).
pub const GSS_CHECKSUM_TYPE: [u8; 3] = [0x00, 0x80, 0x03];

// Key usage numbers.

/// PA-ENC-TIMESTAMP, under the client's key (RFC 4120 7.5.1).
pub const PA_ENC_TIMESTAMP_USAGE: u32 = 1;
/// A ticket's sealed part, under the service's key (RFC 4120 7.5.1).
pub const TICKET_USAGE: u32 = 2;
/// An AS-REP's sealed part, under the client's key (RFC 4120 7.5.1).
pub const AS_REP_USAGE: u32 = 3;
/// The authenticator of a TGS-REQ, under the session key (RFC 4120 7.5.1).
pub const TGS_REQ_AUTHENTICATOR_USAGE: u32 = 7;
/// A TGS-REP's sealed part, under the session key (RFC 4120 7.5.1).
pub const TGS_REP_USAGE: u32 = 8;
/// The authenticator of an AP-REQ, under the session key (RFC 4120 7.5.1).
pub const AP_REQ_AUTHENTICATOR_USAGE: u32 = 11;
/// An AP-REP's sealed part, under the session key (RFC 4120 7.5.1).
pub const AP_REP_USAGE: u32 = 12;
/// A KRB-PRIV's sealed part (RFC 4120 7.5.1).
pub const KRB_PRIV_USAGE: u32 = 13;
/// A message that an acceptor wraps (RFC 4121 2).
pub const ACCEPTOR_SEAL_USAGE: u32 = 22;
/// An acceptor's MIC (RFC 4121 2).
pub const ACCEPTOR_SIGN_USAGE: u32 = 23;
/// A message that an initiator wraps (RFC 4121 2).
pub const INITIATOR_SEAL_USAGE: u32 = 24;
/// An initiator's MIC (RFC 4121 2).
pub const INITIATOR_SIGN_USAGE: u32 = 25;

// Addresses and authorization data.

/// A NetBIOS name as an address: 15 octets padded with blanks, and one for its kind (RFC 4120 7.5.3).
pub const NETBIOS_ADDRESS_TYPE: u8 = 0x14;
/// Authorization data with KERB_AP_OPTIONS (type 143, MS-KILE 3.2.5.8), as the octets of its INTEGER.
pub const AP_OPTIONS_AUTHORIZATION_TYPE: [u8; 2] = [0x00, 0x8f];
/// The option that an authenticator carries channel bindings: KERB_AP_OPTIONS_CBT, 4000 hex in four little-endian
/// octets (MS-KILE 3.2.5.8).
pub const CHANNEL_BINDINGS_AP_OPTION: [u8; 4] = [0x00, 0x40, 0x00, 0x00];
