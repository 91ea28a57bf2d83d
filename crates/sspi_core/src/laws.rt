//! Laws that hold for all values.

ghost use Rattle.std.specs.Prelude.{◌≡◌, IsTrue, Some, false};
ghost use Rattle.sspi_core.specs.Usernames.{UserName, is_user_name};
ghost use Rattle.sspi_core.specs.Identities.{user_text, domain_text, has_empty_domain, named};
ghost use Rattle.sspi_core.specs.Moments.{last_moment};
ghost use Rattle.sspi_core.specs.declared.draw.TheConstants as code;

/// The parts of a name give the name back, save a domain without octets, which is read as none.
pub fn names_return()
    ensures { (name : UserName) → IsTrue (is_user_name name) → has_empty_domain name ≡ false
        → named (user_text name) (domain_text name) ≡ Some name }
{}

/// The code's last moment is that of the definitions.
pub fn constants()
    ensures max_moment { code.MAX_MOMENT ≡ last_moment }
{}
