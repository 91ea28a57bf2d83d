//! Laws of messages, of windows and of keys: public functions without parameters, whose clauses hold for all values.

ghost use Rattle.std.specs.Prelude.{◌≡◌, ◌↔◌, ◌+◌, ◌%◌, ◌^◌, ◌<◌, ◌≤◌, ℕ, ℤ, List, length, take, slice_index, Some, Result, Ok, Err, Bool, true, codes, if◌then◌else◌};
ghost use Rattle.krb_aes.specs.Octets.{IsOctets};
ghost use Rattle.krb_crypto.specs.SealingPair.{SealingPair};
ghost use Rattle.krb_crypto.specs.declared.suite.CipherSuite.TheVariants.{Aes256CtsHmacSha196};
ghost use Rattle.krb_messages.specs.declared.principal_name.PrincipalName.{PrincipalName};
ghost use Rattle.sspi_core.specs.Buffer.{Buffer};
ghost use Rattle.sspi_core.specs.declared.buffer.Part.TheVariants.{Token, Plain};
ghost use Rattle.sspi_core.specs.declared.cause.Cause.{Cause};
ghost use Rattle.sspi_core.specs.declared.cause.Cause.TheVariants.{Direction};
ghost use Rattle.sspi_core.specs.Messages.{find_part};
ghost use Rattle.krb_context.specs.declared.constants.TheConstants as code;
ghost use Rattle.krb_context.specs.declared.context.Kerberos.{Kerberos};
ghost use Rattle.krb_context.specs.declared.server.ServerProperties.{ServerProperties};
ghost use Rattle.krb_context.specs.declared.window.NumberVerdict.TheVariants.{Fresh};
ghost use Rattle.krb_context.specs.ClearWraps.{WrapsClear};
ghost use Rattle.krb_context.specs.Contexts.{is_acceptor, is_peer_acceptor, next_number, number_after_messages};
ghost use Rattle.krb_context.specs.Header.{ec_of};
ghost use Rattle.krb_context.specs.Rules.{no_rules, has_rule, subkey_flag_by_origin, extra_count_by_token};
ghost use Rattle.krb_context.specs.Mics.{MakesMic, ChecksMic, IsMicToken};
ghost use Rattle.krb_context.specs.Openable.{IsOpenable};
ghost use Rattle.krb_context.specs.Params.{suite_of, key_of};
ghost use Rattle.krb_context.specs.Parties.{ready_key, writes_subkey, own_seal_flags, own_sign_flags};
ghost use Rattle.krb_context.specs.Peers.{ArePeers, IsDelivered};
ghost use Rattle.krb_context.specs.Places.{verdict_of, opened};
ghost use Rattle.krb_context.specs.Runs.{Call, AreCalls, made_numbers};
ghost use Rattle.krb_context.specs.ServiceKeys.{service_key};
ghost use Rattle.krb_context.specs.Spelled.{part_octets, spelled};
ghost use Rattle.krb_context.specs.Spelt.{Spelt};
ghost use Rattle.krb_context.specs.Unwraps.{params_for, has_key_size, has_room, Unwraps, message_number};
ghost use Rattle.krb_context.specs.Window.{Window, StandsFor, number_verdict, noted};
ghost use Rattle.krb_context.specs.Wrapped.{limit_of};
ghost use Rattle.krb_context.specs.Wraps.{has_parts, wrapped, Wraps};

/// A message that one end wraps is opened by the other to the same octets: under the same key, suite and extra count (EC), with
/// the same read-only data in the same places, if there is room and the number is fresh.
pub fn wrapped_messages_open()
    ensures { (sender receiver : Kerberos) (confounder : List ℕ) (sent made received : List Buffer) → ArePeers sender receiver
        → length confounder ≡ 16 → IsOctets confounder → IsOctets (part_octets Plain sent)
        → Wraps sender confounder sent (Ok made) → IsDelivered (part_octets Plain sent) made received
        → number_verdict receiver.window (next_number sender.seq_number) ≡ Fresh
        → Unwraps receiver received (Ok (part_octets Plain sent)) }
{}

/// A text that one end wraps in the clear is opened by the other to the same octets: under the same key and suite, if there is
/// room and the number is fresh.
pub fn clear_messages_open()
    ensures { (sender receiver : Kerberos) (p token : List ℕ) (received : List Buffer) (plain : Buffer) → ArePeers sender receiver
        → WrapsClear sender p (Ok token) → spelled received ≡ token → find_part Plain received ≡ Some plain
        → has_room received plain (length p) ≡ true → number_verdict receiver.window (next_number sender.seq_number) ≡ Fresh
        → Unwraps receiver received (Ok p) }
{}

/// A wrap of n octets leaves a token of 60 + EC octets, and data of n octets; its number is the next one.
pub fn wrapped_messages_have_lengths_and_numbers()
    ensures { (sender : Kerberos) (confounder : List ℕ) (sent made : List Buffer) → sender.encryption_params.ec < 2 ^ 16
        → length confounder ≡ 16 → IsOctets confounder → IsOctets (part_octets Plain sent) → Wraps sender confounder sent (Ok made)
        → (length (part_octets Token made) ≡ 60 + sender.encryption_params.ec)
        × (length (part_octets Plain made) ≡ length (part_octets Plain sent))
        × (message_number made ≡ next_number sender.seq_number) }
{}

/// After a number s the k-th next number is s + k modulo 2^32.
pub fn numbers_rise_by_one()
    ensures { (number times : ℕ) → number < 2 ^ 32 → number_after_messages number times ≡ (number + times) % 2 ^ 32 }
{}

/// Over a run of calls that begins at a number s, the k-th wrap or MIC token that is made has the number s + k modulo 2^32;
/// refused ones do not count.
pub fn numbers_rise_over_a_run()
    ensures { (context : Kerberos) (calls : List Call) → AreCalls context calls
        → (k : ℕ) → k < length (made_numbers calls) → slice_index (made_numbers calls) k ≡ (context.seq_number + (k + 1)) % 2 ^ 32 }
{}

/// An established end with a key of its suite's length wraps a message that has a token of room enough, plain data and no
/// stream.
pub fn ready_ends_wrap()
    ensures { (context : Kerberos) (key confounder : List ℕ) (buffers : List Buffer)
        → ready_key context.state context.encryption_params ≡ Some key
        → has_key_size context.encryption_params key ≡ true → has_parts buffers ≡ true
        → 60 + context.encryption_params.ec ≤ limit_of (find_part Token buffers)
        → Wraps context confounder buffers (Ok (wrapped context key confounder buffers)) }
{}

/// A message is opened to a text exactly where its buffers are a spelling of the text, sealed or in the clear, there is room
/// for it, and the number is fresh.
pub fn spelt_messages_are_opened()
    ensures { (context : Kerberos) (key p : List ℕ) (buffers : List Buffer) (plain : Buffer)
        → ready_key context.state context.encryption_params ≡ Some key → has_key_size context.encryption_params key ≡ true
        → find_part Plain buffers ≡ Some plain → Unwraps context buffers (Ok p) ↔ IsOpenable context key buffers plain p }
{}

/// The checks of a message give one answer, so at most one text.
pub fn messages_have_one_answer()
    ensures { (context : Kerberos) (buffers : List Buffer) (one other : Result (List ℕ) Cause) → Unwraps context buffers one
        → Unwraps context buffers other → one ≡ other }
{}

/// At most one text is sealed in given buffers.
pub fn sealed_texts_are_one()
    ensures { (keys : SealingPair) (acceptor : Bool) (ec : ℕ) (buffers : List Buffer) (p q : List ℕ) → Spelt keys acceptor ec buffers p
        → Spelt keys acceptor ec buffers q → p ≡ q }
{}

/// A MIC token is accepted by the other side over the same payload, under the same sub-session key and suite.
pub fn mic_tokens_are_accepted()
    ensures { (maker other : Kerberos) (payload token : List ℕ) → is_acceptor maker ≡ is_peer_acceptor other
        → maker.encryption_params.sub_session_key ≡ other.encryption_params.sub_session_key
        → suite_of maker.encryption_params ≡ suite_of other.encryption_params → MakesMic maker payload (Ok token)
        → ChecksMic other token payload (Ok tt) }
{}

/// A MIC token is accepted over a payload exactly if it is the peer's: a header of the peer's side, in the clear, followed by the
/// checksum of the payload and the header (RFC 4121, sections 4.2.4 and 4.2.6.1).
pub fn peers_mic_tokens_are_accepted()
    ensures { (context : Kerberos) (key payload token : List ℕ) → key_of context.encryption_params ≡ Some key
        → has_key_size context.encryption_params key ≡ true
        → ChecksMic context token payload (Ok tt) ↔ IsMicToken context.encryption_params key (is_peer_acceptor context) payload token }
{}

/// The checks of a MIC token give one answer.
pub fn mic_tokens_have_one_answer()
    ensures { (context : Kerberos) (token payload : List ℕ) (one other : Result (Unit {0}) Cause) → ChecksMic context token payload one
        → ChecksMic context token payload other → one ≡ other }
{}

/// A MIC token is refused by the side that made it, as one of the wrong direction.
pub fn own_mic_tokens_are_refused()
    ensures { (maker : Kerberos) (payload token : List ℕ) → MakesMic maker payload (Ok token) → ChecksMic maker token payload (Err Direction) }
{}

/// Without rules, each end says in all that it seals and signs that the acceptor chose the key.
pub fn without_rules_the_subkey_is_the_acceptors()
    ensures sealed { (context : Kerberos) → context.rules ≡ no_rules → own_seal_flags context ≡ (if is_acceptor context then 7 else 6) }
    ensures signed { (context : Kerberos) → context.rules ≡ no_rules → own_sign_flags context ≡ (if is_acceptor context then 5 else 4) }
{}

/// With the rule `subkey_flag_by_origin`, each end says that the acceptor chose the key exactly if the subkey came in an AP-REP
/// (RFC 4121, section 4.2.2).
pub fn the_subkey_flag_goes_by_its_origin()
    ensures { (context : Kerberos) → has_rule context.rules subkey_flag_by_origin ≡ true
        → writes_subkey context ≡ context.encryption_params.acceptor_subkey }
{}

/// Without rules, a text is opened by the context's own extra count (EC); with the rule `extra_count_by_token`, a text is opened
/// by the extra count in its own header.
pub fn texts_are_opened_by_a_count()
    ensures own { (context : Kerberos) (text : List ℕ) → context.rules ≡ no_rules → params_for context text ≡ context.encryption_params }
    ensures tokens { (context : Kerberos) (text : List ℕ) → has_rule context.rules extra_count_by_token ≡ true → 16 ≤ length text
        → (params_for context text).ec ≡ ec_of (take 16 text) }
{}

/// A window judges and notes a number as each list of places that it represents does.
pub fn windows_follow_the_list()
    ensures { (window : Window) (places : List ℤ) (number : ℕ) → number < 2 ^ 32 → StandsFor window places
        → (number_verdict window number ≡ verdict_of places number)
        × (number_verdict window number ≡ Fresh → StandsFor (noted window number) (opened places number)) }
{}

/// The key for a service depends on the components of its name alone.
pub fn service_keys_go_by_components()
    ensures { (server : ServerProperties) (one other : PrincipalName) → one.name_string ≡ other.name_string
        → service_key server one.name_string ≡ service_key server other.name_string }
{}

/// The code's names and numbers are those of the package (RFC 4121, section 4.2.4: a body is turned by 28 octets, a wrap
/// token has 60 octets in addition to its text).
pub fn constants()
    ensures pkg_name { code.PKG_NAME.now ≡ codes "Kerberos" }
    ensures tgt_service_name { code.TGT_SERVICE_NAME.now ≡ codes "krbtgt" }
    ensures kadmin { code.KADMIN.now ≡ codes "kadmin" }
    ensures change_password_service_name { code.CHANGE_PASSWORD_SERVICE_NAME.now ≡ codes "changepw" }
    ensures default_encryption_type { code.DEFAULT_ENCRYPTION_TYPE ≡ Aes256CtsHmacSha196 }
    ensures rrc { code.RRC ≡ 28 }
    ensures max_token { code.MAX_TOKEN ≡ 48000 }
    ensures max_signature { code.MAX_SIGNATURE ≡ 16 }
    ensures security_trailer { code.SECURITY_TRAILER ≡ 60 }
{}
