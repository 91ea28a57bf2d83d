//! Further services of an acceptor, each with its key.

ghost use Rattle.std.specs.Prelude.{◌≡◌, ℕ, ◌++◌, ◌∷◌, [], List, Some, None, IfOk, OnOk, OnErr, option_map, if◌then◌else◌};
ghost use Rattle.std.specs.Option.{option_or};
ghost use Rattle.std.specs.HashMap.{get, IsUnchanged};
ghost use Rattle.krb_context.specs.AdditionalKeys.{same_components, additional_key, first_place};

use krb_der::{Blank, Items, Name, Octets, OutOfMemory, TryCopy};
use krb_messages::PrincipalName;
use sspi_core::Secret;
use std::alloc::Global;
use std::collections::HashMap;
use std::marker::Model;

/// Further services in the order in which they were added, each with its key. The first of a name is found by an index,
/// whose cost does not grow with the number of services. Contracts see the list.
#[derive(Drop)]
pub struct AdditionalServiceKeys {
    services: Vec<(PrincipalName, Secret<Octets>)>,
    /// The index of the first service with these components.
    places: HashMap<Items<Name>, usize>,
    ghost indexed: { (components : List (List ℕ)) → get same_components places components ≡ first_place services.items components },
}

impl Model for AdditionalServiceKeys {
    ghost use Rattle.std.specs.Prelude.{List, ℕ};
    ghost use Rattle.krb_messages.specs.declared.principal_name.PrincipalName.{PrincipalName};

    ghost Value = { List (PrincipalName × List ℕ) };

    ghost view = { λ keys. keys.services.items };
}

/// Records the index of a service with these components, unless an earlier service has them.
fn note_place(
    alloc: Global,
    places: &mut HashMap<Items<Name>, usize>,
    components: &Items<Name>,
    place: usize,
) -> Result<(), OutOfMemory>
    ensures noted { OnOk result ((other : List (List ℕ)) → get same_components places.new other
        ≡ option_or (get same_components places.old other) (if same_components components.now other then Some place else None)) }
    ensures err { OnErr result (IsUnchanged places.old places.new) }
{
    if !places.contains_key(components) {
        let components = components.copy(alloc)?;
        places.insert(components, place)?;
    }
    Ok(())
}

/// Copies of services and their keys.
fn copied(
    alloc: Global,
    services: &[(PrincipalName, Secret<Octets>)],
) -> Result<Vec<(PrincipalName, Secret<Octets>)>, OutOfMemory>
    ensures { IfOk result (λ copies. copies.items ≡ services.now) }
{
    let mut copies = Vec::with_capacity(alloc, services.len())?;
    for service in services {
        copies.push(service.copy(alloc)?)?;
    }
    Ok(copies)
}

impl AdditionalServiceKeys {
    /// No service. It takes no memory yet.
    pub fn empty(alloc: Global) -> AdditionalServiceKeys
        ensures { result ≡ [] }
    {
        AdditionalServiceKeys {
            services: Vec::new(alloc),
            places: HashMap::new(alloc),
        }
    }

    /// These services, in their order.
    pub fn new(
        alloc: Global,
        services: Vec<(PrincipalName, Secret<Octets>)>,
    ) -> Result<AdditionalServiceKeys, OutOfMemory>
        ensures { IfOk result (λ keys. keys ≡ services.items) }
    {
        let mut places = HashMap::new(alloc);
        for (place, service) in services.iter().enumerate() {
            note_place(alloc, &mut places, &service.0.name_string, place)?;
        }
        Ok(AdditionalServiceKeys { services, places })
    }

    /// The services and their keys.
    pub fn as_slice(&self) -> &[(PrincipalName, Secret<Octets>)]
        ensures { result.now ≡ self.now }
    {
        self.services.as_slice()
    }

    /// Copies of the services and their keys.
    pub fn to_vec(&self, alloc: Global) -> Result<Vec<(PrincipalName, Secret<Octets>)>, OutOfMemory>
        ensures { IfOk result (λ copies. copies.items ≡ self.now) }
    {
        copied(alloc, self.services.as_slice())
    }

    /// Adds one service, after the others. If memory runs out, the services are unchanged.
    pub fn push(
        &mut self,
        alloc: Global,
        name: PrincipalName,
        key: Secret<Octets>,
    ) -> Result<(), OutOfMemory>
        ensures pushed { OnOk result (self.new ≡ self.old ++ (name, key) ∷ []) }
        ensures stays { OnErr result (self.new ≡ self.old) }
    {
        self.services.reserve(1)?;
        let place = self.services.len();
        note_place(alloc, &mut self.places, &name.name_string, place)?;
        self.services.push_reserved((name, key));
        Ok(())
    }

    /// The key of the first service with these components.
    pub fn find(&self, components: &Items<Name>) -> Option<&Secret<Octets>>
        ensures { option_map (λ key. key.now) result ≡ additional_key self.now components.now }
    {
        match self.places.get(components) {
            Some(place) => Some(&self.services[*place].1),
            None => None,
        }
    }
}

impl TryCopy for AdditionalServiceKeys {
    fn copy(&self, alloc: Global) -> Result<AdditionalServiceKeys, OutOfMemory> {
        AdditionalServiceKeys::new(alloc, self.to_vec(alloc)?)
    }
}

impl Blank for AdditionalServiceKeys {
    fn blank(alloc: Global) -> AdditionalServiceKeys {
        AdditionalServiceKeys::empty(alloc)
    }
}
