//! Laws of the messages, for all values.

ghost use Rattle.std.specs.Prelude.{◌≡◌, ◌<◌, ◌^◌, List, ℕ, length};
ghost use Rattle.krb_der.specs.Layout.{items_layout};
ghost use Rattle.krb_messages.specs.OneSpelling.{HasOneSpelling};
ghost use Rattle.krb_exchange.specs.Layouts.{pa_data_layout, etype_info2_entry_layout, pa_enc_ts_enc_layout, kerb_pa_pac_request_layout};
ghost use Rattle.krb_exchange.specs.Layouts.{pa_pac_options_layout, kdc_req_body_layout, kdc_req_layout, as_req_layout, tgs_req_layout};
ghost use Rattle.krb_exchange.specs.Layouts.{kdc_rep_layout, as_rep_layout, tgs_rep_layout, last_req_entry_layout, enc_kdc_rep_part_layout};
ghost use Rattle.krb_exchange.specs.Layouts.{enc_as_rep_part_layout, enc_tgs_rep_part_layout, krb_error_layout, krb_priv_layout};
ghost use Rattle.krb_exchange.specs.Layouts.{enc_krb_priv_part_layout, tgt_req_layout, tgt_rep_layout, kdc_proxy_message_layout};
ghost use Rattle.krb_exchange.specs.Results.{HasOneResult};
ghost use Rattle.krb_exchange.specs.PrivMessages.{IsPrivMessage, IsWritten};
ghost use Rattle.krb_exchange.specs.declared.priv_message.KrbPrivMessage.{KrbPrivMessage};

/// A record has one spelling, a spelling is of one record, and none begins another of its kind. So what was written is
/// read back whole, whatever follows it.
pub fn one_spelling()
    ensures pa_data { HasOneSpelling pa_data_layout }
    ensures etype_info2_entry { HasOneSpelling etype_info2_entry_layout }
    ensures pa_enc_ts_enc { HasOneSpelling pa_enc_ts_enc_layout }
    ensures kerb_pa_pac_request { HasOneSpelling kerb_pa_pac_request_layout }
    ensures pa_pac_options { HasOneSpelling pa_pac_options_layout }
    ensures kdc_req_body { HasOneSpelling kdc_req_body_layout }
    ensures kdc_req { HasOneSpelling kdc_req_layout }
    ensures as_req { HasOneSpelling as_req_layout }
    ensures tgs_req { HasOneSpelling tgs_req_layout }
    ensures kdc_rep { HasOneSpelling kdc_rep_layout }
    ensures as_rep { HasOneSpelling as_rep_layout }
    ensures tgs_rep { HasOneSpelling tgs_rep_layout }
    ensures last_req_entry { HasOneSpelling last_req_entry_layout }
    ensures enc_kdc_rep_part { HasOneSpelling enc_kdc_rep_part_layout }
    ensures enc_as_rep_part { HasOneSpelling enc_as_rep_part_layout }
    ensures enc_tgs_rep_part { HasOneSpelling enc_tgs_rep_part_layout }
    ensures krb_error { HasOneSpelling krb_error_layout }
    ensures krb_priv { HasOneSpelling krb_priv_layout }
    ensures enc_krb_priv_part { HasOneSpelling enc_krb_priv_part_layout }
    ensures tgt_req { HasOneSpelling tgt_req_layout }
    ensures tgt_rep { HasOneSpelling tgt_rep_layout }
    ensures kdc_proxy_message { HasOneSpelling kdc_proxy_message_layout }
    ensures pa_datas { HasOneSpelling (items_layout pa_data_layout) }
    ensures etype_info2 { HasOneSpelling (items_layout etype_info2_entry_layout) }
    ensures last_req { HasOneSpelling (items_layout last_req_entry_layout) }
{}

/// Octets are one reply of a KDC, or one error, and not both.
pub fn one_result()
    ensures as_rep { HasOneResult as_rep_layout }
    ensures tgs_rep { HasOneResult tgs_rep_layout }
{}

/// Octets are read as one message with an AP message and a KRB-PRIV.
pub fn one_priv_message()
    ensures { (x y : KrbPrivMessage) (octets : List ℕ) → IsPrivMessage x octets → IsPrivMessage y octets → x ≡ y }
{}

/// A written message is read back if the length of its AP message fits the two octets.
pub fn written_priv_messages_are_read()
    ensures { (message : KrbPrivMessage) (octets : List ℕ) (written : IsWritten message octets) → length written.ap < 2 ^ 16 → IsPrivMessage message octets }
{}
