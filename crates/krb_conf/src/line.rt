//! The content of one line of a `krb5.conf` by itself.

ghost use Rattle.std.specs.Prelude.{◌≡◌, option_copied, option_map};
ghost use Rattle.krb_conf.specs.Line.{is_skipped, section_name, relation};

/// Returns whether a trimmed line is empty or a comment.
pub(crate) fn is_skipped(line: &str) -> bool
    ensures { result ≡ is_skipped line.now }
{
    line.is_empty() || line.starts_with('#') || line.starts_with(';')
}

/// Returns the section that a trimmed line names.
pub(crate) fn section_name(line: &str) -> Option<&str>
    ensures { option_copied result ≡ section_name line.now }
{
    line.strip_prefix('[')?.strip_suffix(']')
}

/// Returns the name and the value that a trimmed line relates.
pub(crate) fn relation(line: &str) -> Option<(&str, &str)>
    ensures { option_map (λ pair. (pair.0.now, pair.1.now)) result ≡ relation line.now }
{
    let (name, value) = line.split_once('=')?;
    Some((name.trim(), value.trim()))
}
