//! The configuration of a Kerberos client.

ghost use Rattle.std.specs.Prelude.{◌≡◌, IfOk, option_and_then};
ghost use Rattle.std.specs.Option.{option_or};
ghost use Rattle.krb_conf.specs.Kdc as words;
ghost use Rattle.krb_conf.specs.Kdc.{kdc_host, with_protocol};

use crate::env::Env;
use crate::kdc::{detect_kdc_url, parse_kdc_url};
use krb_der::{OutOfMemory, Text, TryCopy};
use std::alloc::Global;
use url::Url;

/// The configuration of a Kerberos client.
#[derive(Drop)]
pub struct KerberosConfig {
    /// The URL of the client's own KDC, if it is known.
    pub kdc_url: Option<Url>,
    /// The name of the client's machine.
    pub client_computer_name: Text,
}

impl KerberosConfig {
    /// Makes a configuration with the KDC at this address, as `parse_kdc_url` reads it.
    pub fn new(
        alloc: Global,
        kdc_url: &str,
        client_computer_name: Text,
    ) -> Result<KerberosConfig, OutOfMemory>
        ensures kdc_url { IfOk result (λ config. config.kdc_url
            ≡ words.url_of (with_protocol kdc_url.now)) }
        ensures name { IfOk result (λ config. config.client_computer_name
            ≡ client_computer_name) }
    {
        Ok(KerberosConfig {
            kdc_url: parse_kdc_url(alloc, kdc_url)?,
            client_computer_name,
        })
    }

    /// Returns the URL of the KDC: the one in the configuration, otherwise the one that `detect_kdc_url` finds.
    pub fn get_kdc_url(
        self,
        alloc: Global,
        env: &Env,
        domain: &str,
    ) -> Result<Option<Url>, OutOfMemory>
        ensures { IfOk result (λ url. url ≡ option_or self.kdc_url
            (option_and_then words.url_of (kdc_host env.now.vars env.now.files domain.now))) }
    {
        let KerberosConfig {
            kdc_url,
            client_computer_name: _,
        } = self;
        match kdc_url {
            Some(url) => Ok(Some(url)),
            None => detect_kdc_url(alloc, env, domain),
        }
    }
}

impl TryCopy for KerberosConfig {
    fn copy(&self, alloc: Global) -> Result<KerberosConfig, OutOfMemory> {
        let kdc_url = match &self.kdc_url {
            Some(url) => Some(url.clone()?),
            None => None,
        };
        Ok(KerberosConfig {
            kdc_url,
            client_computer_name: self.client_computer_name.copy(alloc)?,
        })
    }
}
