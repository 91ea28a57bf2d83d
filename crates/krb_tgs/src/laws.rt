//! Laws of chains of replies, for all values.

ghost use Rattle.std.specs.Prelude.{◌≡◌, List};
ghost use Rattle.krb_context.specs.Rules.{no_rules};
ghost use Rattle.krb_exchange.specs.declared.kdc_rep.TgsRep.{TgsRep};
ghost use Rattle.krb_replies.specs.declared.keys.ReplyKey.{ReplyKey};
ghost use Rattle.krb_tgs.specs.Chain.{HandsOn};

/// Without rules, one suite goes through a whole chain of replies.
pub fn without_rules_chains_have_one_suite()
    ensures { (shown : ReplyKey) (replies : List TgsRep) (last : ReplyKey) → HandsOn no_rules shown replies last → last.suite ≡ shown.suite }
{}
