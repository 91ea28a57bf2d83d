//! The principals, trusts and routes of a KDC, in the order in which they were added. A look-up takes no longer among many than
//! among few; for that each name is stored a second time, as a key.

use crate::kdc::{Principal, Route, Trust};
use indexmap::IndexMap;
use krb_der::{Items, Name, OutOfMemory, TryCopy};
use std::alloc::Global;
use std::marker::Model;

/// Principals, by their components.
#[derive(Drop)]
pub struct Principals {
    by_name: IndexMap<Items<Name>, Principal>,
}

impl Model for Principals {
    ghost use Rattle.std.specs.Prelude.{◌≡◌, true, List, map};
    ghost use Rattle.std.specs.List.{list_all};
    ghost use Rattle.krb_kdc.specs.declared.kdc.Principal.{Principal};
    ghost use Rattle.krb_kdc.specs.Tables.{is_keyed_principal};

    ghost Value = { List Principal };

    ghost view = { λ t. map (λ e. e.1) t.by_name.entries };

    ghost invariant = { λ t. list_all is_keyed_principal t.by_name.entries ≡ true };
}

impl Principals {
    ghost use Rattle.std.specs.Prelude.{◌≡◌, ◌++◌, ◌∷◌, [], None, OnOk, OnErr};
    ghost use Rattle.std.specs.Option.{option_copied};
    ghost use Rattle.krb_kdc.specs.Registers.{principal_with};

    /// None yet. It takes no memory.
    pub fn new(alloc: Global) -> Principals
        ensures { result ≡ [] }
    {
        Principals {
            by_name: IndexMap::new(alloc),
        }
    }

    /// The principal whose name has these components.
    pub fn find(&self, components: &Items<Name>) -> Option<&Principal>
        ensures { option_copied result ≡ principal_with components.now self.now }
    {
        self.by_name.get(components)
    }

    /// Adds a principal after the others.
    pub fn add(&mut self, alloc: Global, principal: Principal) -> Result<(), OutOfMemory>
        requires { principal_with principal.components self.old ≡ None }
        ensures added { OnOk result (self.new ≡ self.old ++ principal ∷ []) }
        ensures stays { OnErr result (self.new ≡ self.old) }
    {
        let components = principal.components.copy(alloc)?;
        self.by_name.insert(components, principal)?;
        Ok(())
    }
}

/// Trusts, by their realms.
#[derive(Drop)]
pub struct Trusts {
    by_realm: IndexMap<Name, Trust>,
}

impl Model for Trusts {
    ghost use Rattle.std.specs.Prelude.{◌≡◌, true, List, map};
    ghost use Rattle.std.specs.List.{list_all};
    ghost use Rattle.krb_kdc.specs.declared.kdc.Trust.{Trust};
    ghost use Rattle.krb_kdc.specs.Tables.{is_keyed_trust};

    ghost Value = { List Trust };

    ghost view = { λ t. map (λ e. e.1) t.by_realm.entries };

    ghost invariant = { λ t. list_all is_keyed_trust t.by_realm.entries ≡ true };
}

impl Trusts {
    ghost use Rattle.std.specs.Prelude.{◌≡◌, ◌++◌, ◌∷◌, [], None, OnOk, OnErr};
    ghost use Rattle.std.specs.Option.{option_copied};
    ghost use Rattle.krb_kdc.specs.Registers.{trust_in};

    /// None yet. It takes no memory.
    pub fn new(alloc: Global) -> Trusts
        ensures { result ≡ [] }
    {
        Trusts {
            by_realm: IndexMap::new(alloc),
        }
    }

    /// The trust in a realm.
    pub fn find(&self, realm: &Name) -> Option<&Trust>
        ensures { option_copied result ≡ trust_in realm.now self.now }
    {
        self.by_realm.get(realm)
    }

    /// Adds a trust after the others.
    pub fn add(&mut self, alloc: Global, trust: Trust) -> Result<(), OutOfMemory>
        requires { trust_in trust.realm self.old ≡ None }
        ensures added { OnOk result (self.new ≡ self.old ++ trust ∷ []) }
        ensures stays { OnErr result (self.new ≡ self.old) }
    {
        let realm = trust.realm.copy(alloc)?;
        self.by_realm.insert(realm, trust)?;
        Ok(())
    }
}

/// Routes, by their services.
#[derive(Drop)]
pub struct Routes {
    by_service: IndexMap<Items<Name>, Route>,
}

impl Model for Routes {
    ghost use Rattle.std.specs.Prelude.{◌≡◌, true, List, map};
    ghost use Rattle.std.specs.List.{list_all};
    ghost use Rattle.krb_kdc.specs.declared.kdc.Route.{Route};
    ghost use Rattle.krb_kdc.specs.Tables.{is_keyed_route};

    ghost Value = { List Route };

    ghost view = { λ t. map (λ e. e.1) t.by_service.entries };

    ghost invariant = { λ t. list_all is_keyed_route t.by_service.entries ≡ true };
}

impl Routes {
    ghost use Rattle.std.specs.Prelude.{◌≡◌, ◌++◌, ◌∷◌, [], None, OnOk, OnErr};
    ghost use Rattle.std.specs.Option.{option_copied};
    ghost use Rattle.krb_kdc.specs.Registers.{route_to};

    /// None yet. It takes no memory.
    pub fn new(alloc: Global) -> Routes
        ensures { result ≡ [] }
    {
        Routes {
            by_service: IndexMap::new(alloc),
        }
    }

    /// The route to a service.
    pub fn find(&self, service: &Items<Name>) -> Option<&Route>
        ensures { option_copied result ≡ route_to service.now self.now }
    {
        self.by_service.get(service)
    }

    /// Adds a route after the others.
    pub fn add(&mut self, alloc: Global, route: Route) -> Result<(), OutOfMemory>
        requires { route_to route.service self.old ≡ None }
        ensures added { OnOk result (self.new ≡ self.old ++ route ∷ []) }
        ensures stays { OnErr result (self.new ≡ self.old) }
    {
        let service = route.service.copy(alloc)?;
        self.by_service.insert(service, route)?;
        Ok(())
    }
}
