//! Laws of an initiator's end, for all values.

ghost use Rattle.std.specs.Prelude.{◌≡◌, ℕ, Bool, List, Option, true};
ghost use Rattle.krb_crypto.specs.declared.suite.CipherSuite.{CipherSuite};
ghost use Rattle.krb_messages.specs.declared.encryption.EncryptionKey.{EncryptionKey};
ghost use Rattle.krb_context.specs.Contexts.{next_number};
ghost use Rattle.krb_context.specs.Rules.{no_rules, has_rule, first_number_as_shown};
ghost use Rattle.krb_context.specs.declared.state.KerberosState.TheVariants as states;
ghost use Rattle.sspi_core.specs.declared.draw.Draw.{Draw};
ghost use Rattle.sspi_core.specs.declared.results.SecurityStatus.TheVariants as statuses;
ghost use Rattle.krb_ap.specs.declared.initiator.Initiator.{Initiator};
ghost use Rattle.krb_ap.specs.Answered.{confirmed, subkey_in, chosen_subkey};
ghost use Rattle.krb_ap.specs.Shown.{kept_subkey, shown_state, shown_number, shown_status};

/// The sequence number of an initiator's first message after an AP-REP: by a rule the one that its authenticator showed, which is
/// the one after its own; without rules the next one.
pub fn first_numbers()
    ensures as_shown { (initiator : Initiator) (from_service : Bool) (subkey : List ℕ) → has_rule initiator.rules first_number_as_shown ≡ true
        → next_number (confirmed initiator from_service subkey).change.seq_number ≡ next_number initiator.number }
    ensures without { (initiator : Initiator) (from_service : Bool) (subkey : List ℕ) → initiator.rules ≡ no_rules
        → next_number (confirmed initiator from_service subkey).change.seq_number ≡ next_number (next_number initiator.number) }
{}

/// Without rules, an initiator awaits the service's answer after its AP-REQ, whether it asked for one or not,
/// and that answer has the key of messages.
pub fn without_rules_an_answer_is_awaited()
    ensures state { (initiator : Initiator) → initiator.rules ≡ no_rules → shown_state initiator ≡ states.ApExchange }
    ensures status { (initiator : Initiator) → initiator.rules ≡ no_rules → shown_status initiator ≡ statuses.ContinueNeeded }
    ensures number { (initiator : Initiator) → initiator.rules ≡ no_rules → shown_number initiator ≡ initiator.number }
    ensures key { (initiator : Initiator) → initiator.rules ≡ no_rules → (suite : CipherSuite) (draw : Draw)
        → kept_subkey initiator suite draw ≡ initiator.params.sub_session_key }
    ensures subkey { (initiator : Initiator) → initiator.rules ≡ no_rules → (subkey : Option EncryptionKey)
        → chosen_subkey initiator subkey ≡ subkey_in subkey }
{}
