//! Laws of the command, for all values.

ghost use Rattle.std.specs.Prelude.{◌≡◌, ◌≢◌, ◌⊎◌, ℕ, List};
ghost use Rattle.krb_machine.specs.Serve.{end_of};
ghost use Rattle.krb_text.specs.declared.status.Status.{Status};
ghost use Rattle.krb_text.specs.declared.status.Status.TheVariants.{Done, BadWords, ReadFault, WriteFault, OutOfMemory};
ghost use Rattle.krb_threads.specs.Threads.{Written};

/// An input with no bad and no long line is answered whole, or a read or a write fails, or memory runs out.
pub fn inputs_are_answered()
    ensures { (input taken written : List ℕ) (status : Status) → end_of input ≡ Done → Written input taken status written → status ≢ BadWords
        → (status ≡ Done) ⊎ ((status ≡ ReadFault) ⊎ ((status ≡ WriteFault) ⊎ (status ≡ OutOfMemory))) }
{}
