//! Laws of the records and frames, for all values.

ghost use Rattle.std.specs.Prelude.{◌≡◌, ◌∷◌, [], List, ℕ};
ghost use Rattle.krb_der.specs.Layout.{items_layout};
ghost use Rattle.krb_messages.specs.declared.constants.TheConstants as code;
ghost use Rattle.krb_messages.specs.Frame.{IsFrame};
ghost use Rattle.krb_messages.specs.Oid.{krb5_oid, ms_krb5_oid, user_to_user_oid};
ghost use Rattle.krb_messages.specs.OneSpelling.{HasOneSpelling};
ghost use Rattle.krb_messages.specs.Layouts.{
  principal_name_layout,
  host_address_layout,
  authorization_data_element_layout,
  encrypted_data_layout,
  encryption_key_layout,
  checksum_layout,
  ticket_layout,
  transited_encoding_layout,
  enc_ticket_part_layout,
  ap_req_layout,
  authenticator_layout,
  ap_rep_layout,
  enc_ap_rep_part_layout,
};

/// Each record that is sound and short enough has one spelling, a spelling is of one record, and none begins another of
/// its kind. So what was written is read back whole, whatever follows it.
pub fn one_spelling()
    ensures principal_name { HasOneSpelling principal_name_layout }
    ensures host_address { HasOneSpelling host_address_layout }
    ensures authorization_data_element { HasOneSpelling authorization_data_element_layout }
    ensures encrypted_data { HasOneSpelling encrypted_data_layout }
    ensures encryption_key { HasOneSpelling encryption_key_layout }
    ensures checksum { HasOneSpelling checksum_layout }
    ensures ticket { HasOneSpelling ticket_layout }
    ensures transited_encoding { HasOneSpelling transited_encoding_layout }
    ensures enc_ticket_part { HasOneSpelling enc_ticket_part_layout }
    ensures ap_req { HasOneSpelling ap_req_layout }
    ensures authenticator { HasOneSpelling authenticator_layout }
    ensures ap_rep { HasOneSpelling ap_rep_layout }
    ensures enc_ap_rep_part { HasOneSpelling enc_ap_rep_part_layout }
    ensures host_addresses { HasOneSpelling (items_layout host_address_layout) }
    ensures authorization_data { HasOneSpelling (items_layout authorization_data_element_layout) }
{}

/// Octets are the frame of one message under one object identifier, for one token id.
pub fn one_frame()
    ensures { (oid other token_id message another octets : List ℕ) → IsFrame oid token_id message octets
        → IsFrame other token_id another octets → (oid ≡ other) × (message ≡ another) }
{}

/// The code's numbers and names are those of the standards, each as its document assigns it (`constants` names them).
pub fn constants()
    ensures kerberos_version { code.KERBEROS_VERSION ≡ 5 }
    ensures krb5_oid { code.KRB5_OID ≡ krb5_oid }
    ensures ms_krb5_oid { code.MS_KRB5_OID ≡ ms_krb5_oid }
    ensures user_to_user_oid { code.USER_TO_USER_OID ≡ user_to_user_oid }
    ensures ap_req_token_id { code.AP_REQ_TOKEN_ID ≡ 0x01 ∷ 0x00 ∷ [] }
    ensures ap_rep_token_id { code.AP_REP_TOKEN_ID ≡ 0x02 ∷ 0x00 ∷ [] }
    ensures tgt_req_token_id { code.TGT_REQ_TOKEN_ID ≡ 0x04 ∷ 0x00 ∷ [] }
    ensures tgt_rep_token_id { code.TGT_REP_TOKEN_ID ≡ 0x04 ∷ 0x01 ∷ [] }
    ensures as_req_msg_type { code.AS_REQ_MSG_TYPE ≡ 10 }
    ensures as_rep_msg_type { code.AS_REP_MSG_TYPE ≡ 11 }
    ensures tgs_req_msg_type { code.TGS_REQ_MSG_TYPE ≡ 12 }
    ensures tgs_rep_msg_type { code.TGS_REP_MSG_TYPE ≡ 13 }
    ensures ap_req_msg_type { code.AP_REQ_MSG_TYPE ≡ 14 }
    ensures ap_rep_msg_type { code.AP_REP_MSG_TYPE ≡ 15 }
    ensures tgt_req_msg_type { code.TGT_REQ_MSG_TYPE ≡ 16 }
    ensures tgt_rep_msg_type { code.TGT_REP_MSG_TYPE ≡ 17 }
    ensures krb_priv_msg_type { code.KRB_PRIV_MSG_TYPE ≡ 21 }
    ensures krb_error_msg_type { code.KRB_ERROR_MSG_TYPE ≡ 30 }
    ensures nt_principal { code.NT_PRINCIPAL ≡ 1 }
    ensures nt_srv_inst { code.NT_SRV_INST ≡ 2 }
    ensures nt_enterprise { code.NT_ENTERPRISE ≡ 10 }
    ensures rsa_md5_checksum_type { code.RSA_MD5_CHECKSUM_TYPE ≡ 0x07 ∷ [] }
    ensures gss_checksum_type { code.GSS_CHECKSUM_TYPE ≡ 0x00 ∷ 0x80 ∷ 0x03 ∷ [] }
    ensures pa_enc_timestamp_usage { code.PA_ENC_TIMESTAMP_USAGE ≡ 1 }
    ensures ticket_usage { code.TICKET_USAGE ≡ 2 }
    ensures as_rep_usage { code.AS_REP_USAGE ≡ 3 }
    ensures tgs_req_authenticator_usage { code.TGS_REQ_AUTHENTICATOR_USAGE ≡ 7 }
    ensures tgs_rep_usage { code.TGS_REP_USAGE ≡ 8 }
    ensures ap_req_authenticator_usage { code.AP_REQ_AUTHENTICATOR_USAGE ≡ 11 }
    ensures ap_rep_usage { code.AP_REP_USAGE ≡ 12 }
    ensures krb_priv_usage { code.KRB_PRIV_USAGE ≡ 13 }
    ensures acceptor_seal_usage { code.ACCEPTOR_SEAL_USAGE ≡ 22 }
    ensures acceptor_sign_usage { code.ACCEPTOR_SIGN_USAGE ≡ 23 }
    ensures initiator_seal_usage { code.INITIATOR_SEAL_USAGE ≡ 24 }
    ensures initiator_sign_usage { code.INITIATOR_SIGN_USAGE ≡ 25 }
    ensures netbios_address_type { code.NETBIOS_ADDRESS_TYPE ≡ 0x14 }
    ensures ap_options_authorization_type { code.AP_OPTIONS_AUTHORIZATION_TYPE ≡ 0x00 ∷ 0x8f ∷ [] }
    ensures channel_bindings_ap_option { code.CHANNEL_BINDINGS_AP_OPTION ≡ 0x00 ∷ 0x40 ∷ 0x00 ∷ 0x00 ∷ [] }
{}
