//! The help text of the program.

pub const HELP: &str = "\
krb_keys prints the keytab file on standard input, as MIT krb5 and Heimdal write them (format 0502).

    krb_keys list                       prints a line for each entry, and no key
    krb_keys lines <realm> <acceptor>   prints the keys of the realm's services as key lines of that acceptor, for krb_run
    krb_keys --help, -h                 this text
    krb_keys --version, -V              the version

A line of list has six fields, with one space between two: the version of the key, the type of the name (RFC 4120,
section 6.2), the name and the number of the encryption type (unknown, if the program has no name for it), the time of
the entry in seconds since 1970, and the principal. In a principal / ends a component and @ the components. A /, an @
or a backslash inside a component has a backslash before it; an octet outside 21 to 7E is \\x and two hex digits.

A line of lines is

    key <acceptor> <service> <hex>

for each service of the realm that has a key of 32 octets of type 18, otherwise one of 16 octets of type 17, in the order
in which the services first occur: its key of the greatest version, and the last of equal ones. The acceptor is a number of
at most 32 bits. A service that no such line can name, with a space or a / inside a component, is left out: a line that
begins with # takes its place. These lines are secret.

If nothing is printed, one line on standard error says why: for an input that is not a keytab, at which octet, counted
from 0.

Exit status:

    0    the whole input was answered
    1    nothing was found: the realm has no entry, or no key that an acceptor can use
    2    the words are not a command
    3    the input is not a keytab
    4    a read failed
    5    a write failed
    6    memory ran out
    7    the input has more than 1073741824 octets
";
