//! Variables and files that the caller passes in: nothing here reads the environment or a file.

ghost use Rattle.std.specs.Prelude.{◌≡◌, ◌==◌, [], IfOk, map, option_copied, option_map};
ghost use Rattle.std.specs.List.{find, filter_map, slice_split};
ghost use Rattle.krb_conf.specs.Env.{named, conf_texts};
ghost use Rattle.krb_conf.specs.Ascii.{colon};

use crate::config_file::ConfigFile;
use krb_der::{Items, OutOfMemory, Text, TryCopy};
use std::alloc::Global;

/// The variables of the environment and the texts of the files, each with its name; the first pair
/// with a name counts.
#[derive(Drop)]
pub struct Env {
    /// Variables and their values.
    pub vars: Items<(Text, Text)>,
    /// Paths and the files there.
    pub files: Items<(Text, ConfigFile)>,
}

/// Returns the value of the first pair with this name.
fn lookup<'a, V>(pairs: &'a Items<(Text, V)>, name: &str) -> Option<&'a V>
    ensures { option_copied result ≡ named name.entry.now pairs.entry.now }
{
    for (key, value) in pairs.as_slice() {
        if key.as_str() == name {
            return Some(value);
        }
    }
    None
}

/// Returns the value of the variable with this name.
pub(crate) fn variable<'a>(vars: &'a Items<(Text, Text)>, name: &str) -> Option<&'a str>
    ensures { option_copied result ≡ named name.entry.now vars.entry.now }
{
    match lookup(vars, name) {
        Some(value) => Some(value.as_str()),
        None => None,
    }
}

/// The files that are read if the variable `KRB5_CONFIG` is not set.
const DEFAULT_PATHS: &str = "/etc/krb5.conf:/usr/local/etc/krb5.conf";

/// Returns the files that exist at these paths, in the order of the paths. Colons separate the paths.
fn files_of<'a>(
    alloc: Global,
    files: &'a Items<(Text, ConfigFile)>,
    paths: &str,
) -> Result<Vec<&'a ConfigFile>, OutOfMemory>
    ensures { IfOk result (λ found. map (λ file. file.now) found.items
        ≡ filter_map (λ path. named path files.entry.now)
        (slice_split (λ octet. octet == colon) paths.entry.now)) }
{
    let mut found = Vec::new(alloc);
    for path in paths.split(':') {
        let Some(file) = lookup(files, path) else {
            continue;
        };
        found.push(file)?;
    }
    Ok(found)
}

impl Env {
    /// No variable and no file.
    pub fn new(alloc: Global) -> Env
        ensures { result ≡ record { vars = []; files = [] } }
    {
        Env {
            vars: Items::new(Vec::new(alloc)),
            files: Items::new(Vec::new(alloc)),
        }
    }

    /// The files of `krb5.conf`, in the order in which they are asked.
    pub(crate) fn conf_files(&self, alloc: Global) -> Result<Vec<&ConfigFile>, OutOfMemory>
        ensures { IfOk result (λ files. map (λ file. file.now) files.items
            ≡ conf_texts self.entry.now.vars self.entry.now.files) }
    {
        let paths = variable(&self.vars, "KRB5_CONFIG").unwrap_or(DEFAULT_PATHS);
        files_of(alloc, &self.files, paths)
    }
}

impl TryCopy for Env {
    fn copy(&self, alloc: Global) -> Result<Env, OutOfMemory> {
        let vars = self.vars.copy(alloc)?;
        Ok(Env {
            vars,
            files: self.files.copy(alloc)?,
        })
    }
}
