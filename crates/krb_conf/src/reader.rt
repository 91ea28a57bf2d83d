//! The place and the effect of the lines of a `krb5.conf`.

ghost use Rattle.std.specs.Prelude.{◌≡◌, ◌+◌, ◌^◌, ◌<◌, ◌≤◌, None, option_copied};
ghost use Rattle.krb_conf.specs.Krb5Conf as conf;
ghost use Rattle.krb_conf.specs.Krb5Conf.{effect};
ghost use Rattle.krb_conf.specs.Seen.{place_of, effect_of, depth_of, depth_after};

use crate::line::{relation, section_name};
use crate::relation::Relation;
use krb_der::has_octet;

/// A section, and the place of a line in it.
#[derive(Clone, Copy)]
pub(crate) struct Section<'a> {
    pub(crate) name: &'a str,
    /// The group that was opened last, if no brace was closed since.
    pub(crate) group: Option<&'a str>,
    /// The number of open braces.
    pub(crate) depth: usize,
}

/// The place of a line.
#[derive(Clone, Copy)]
pub(crate) enum Place<'a> {
    Outside,
    Within(Section<'a>),
}

/// The effect of a line.
#[derive(Clone, Copy)]
pub(crate) enum Effect<'a> {
    Nothing,
    LeadsTo(Place<'a>),
    Adds(Relation<'a>),
}

/// Returns the effect of a line that leads to this place within a section.
fn leads_within<'a>(name: &'a str, group: Option<&'a str>, depth: usize) -> Effect<'a>
    ensures leads { effect_of result
        ≡ conf.LeadsTo (conf.Within name.entry.now (option_copied group.entry) depth) }
    ensures depth { depth_after result ≡ depth }
{
    Effect::LeadsTo(Place::Within(Section { name, group, depth }))
}

/// Returns the effect of a trimmed line outside every section.
fn effect_outside<'a>(line: &'a str) -> Effect<'a>
    ensures does { effect_of result ≡ effect conf.Outside line.entry.now }
    ensures depth { depth_after result ≡ 0 }
{
    match section_name(line) {
        Some(name) => leads_within(name, None, 0),
        None => Effect::Nothing,
    }
}

/// Returns the effect of a trimmed line within a section.
fn effect_within<'a>(section: Section<'a>, line: &'a str) -> Effect<'a>
    requires { section.depth + 1 < 2 ^ 64 }
    ensures does { effect_of result
        ≡ effect (place_of (Place.Within section.entry)) line.entry.now }
    ensures depth { depth_after result ≤ section.entry.depth + 1 }
{
    let Section { name, group, depth } = section;
    if depth == 0 && line.starts_with('[') {
        return match section_name(line) {
            Some(name) => leads_within(name, None, 0),
            None => Effect::LeadsTo(Place::Outside),
        };
    }
    if depth > 0 && line.ends_with('}') {
        return leads_within(name, None, depth - 1);
    }
    if has_octet(line, b'{') {
        return match relation(line) {
            Some((group, _)) => leads_within(name, Some(group), depth + 1),
            None => Effect::Nothing,
        };
    }
    if let Some(name) = section_name(line) {
        return leads_within(name, None, depth);
    }
    match relation(line) {
        Some((related, value)) => Effect::Adds(Relation {
            section: name,
            group,
            name: related,
            value,
        }),
        None => Effect::Nothing,
    }
}

/// Returns the effect of a trimmed line that is neither a comment nor empty.
pub(crate) fn effect_at<'a>(place: Place<'a>, line: &'a str) -> Effect<'a>
    requires { depth_of place + 1 < 2 ^ 64 }
    ensures does { effect_of result ≡ effect (place_of place.entry) line.entry.now }
    ensures depth { depth_after result ≤ depth_of place.entry + 1 }
{
    match place {
        Place::Outside => effect_outside(line),
        Place::Within(section) => effect_within(section, line),
    }
}
