//! Laws of the definitions, for all values.

ghost use Rattle.std.specs.Prelude.{◌≡◌, ℕ, List, Option};
ghost use Rattle.krb_authorization.specs.Elements.{ElementAt};
ghost use Rattle.krb_messages.specs.declared.authorization_data.AuthorizationDataElement.{AuthorizationDataElement};

/// One element is at a place, or none.
pub fn one_element_at_a_place()
    ensures { (elements : List AuthorizationDataElement) (place : ℕ) (one other : Option AuthorizationDataElement)
        → ElementAt elements place one → ElementAt elements place other → one ≡ other }
{
    krb_messages::laws::one_spelling();
}
