//! Laws of keytab files: public functions without parameters, whose clauses hold for all values.

ghost use Rattle.std.specs.Prelude.{◌≡◌, ℕ, ◌<◌, Bool, List, [], None, true, All};
ghost use Rattle.std.specs.List.{AllByRecursion};
ghost use Rattle.krb_context.specs.declared.server.ServerProperties.{ServerProperties};
ghost use Rattle.krb_context.specs.ServiceKeys.{service_key};
ghost use Rattle.krb_keytab.specs.declared.entry.KeytabEntry.{KeytabEntry};
ghost use Rattle.krb_keytab.specs.Finding.{greatest, FindsGreatest};
ghost use Rattle.krb_keytab.specs.Installing.{key_for, keys_of, with_keys};
ghost use Rattle.krb_keytab.specs.Format.{Spells, IsBrokenAt, Fits, can_all_be_written, written};

/// Octets are a file in one way at the most: it has one list of entries, or one first fault, and not both.
pub fn files_are_read_one_way()
    ensures one { (one other : List KeytabEntry) (octets : List ℕ) → Spells one octets → Spells other octets → one ≡ other }
    ensures sound { (entries : List KeytabEntry) (octets : List ℕ) (place : ℕ) → All (λ octet. octet < 256) octets → Spells entries octets
        → IsBrokenAt place octets → ⊥ }
    ensures place { (octets : List ℕ) (one other : ℕ) → All (λ octet. octet < 256) octets → IsBrokenAt one octets → IsBrokenAt other octets → one ≡ other }
{}

/// The written form of entries, whose fields have their ranges, is a file with these entries, so it is read back.
pub fn written_files_are_read()
    ensures { (entries : List KeytabEntry) → AllByRecursion Fits entries → can_all_be_written entries ≡ true → Spells entries (written entries) }
{}

/// The greatest of the entries that pass a test is meant so: it passes the test, none before it is of a greater version, and
/// each after it is of a lower one; and there is none only if no entry passes.
pub fn the_greatest_is_found()
    ensures { (passes : KeytabEntry → Bool) (entries : List KeytabEntry) → FindsGreatest passes entries (greatest passes entries) }
{}

/// If an acceptor has no key, after the keys of a realm are installed its key for a name is the keytab's, or none.
pub fn installed_keys_are_found()
    ensures { (realm : List ℕ) (entries : List KeytabEntry) (components : List (List ℕ)) (server : ServerProperties) → server.ticket_decryption_key ≡ None
        → server.additional_service_keys ≡ [] → service_key (with_keys server (keys_of realm entries)) components ≡ key_for entries realm components }
{}
