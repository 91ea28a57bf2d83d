//! The help text of the program.

pub const HELP: &str = "\
krb_realm answers Kerberos requests as the KDC of one realm, one line of text for each. It is for tests and trials.

    krb_realm answer       reads lines on standard input, and writes the reply to each request before it reads on
    krb_realm --help       this text
    krb_realm --version    the version

Lines, with one space between two fields; a line that is empty or begins with # is only counted:

    realm <realm> <type> <skew> <hex>    first, once: the realm, the encryption type of all its keys, 17 or 18, the clock skew
                                         that is allowed, 0 to 86400 seconds, and the key of its ticket-granting service
    password <principal> <hex>           a client or a service, and its password
    key <principal> <hex>                a client or a service, and its key
    trust <realm> <hex>                  a realm that shares this key: its tickets are accepted, and tickets for it are issued
    route <service> <realm>              a service for which clients are referred to a trusted realm
    request <moment> <random> <hex>      an AS-REQ or a TGS-REQ, after its length in four octets; - for no octets

A line counts for the requests after it. A principal and a service have / between two components. The key of a password is
made with the realm and then the components as its salt, which clients are sent. A moment is in microseconds since
1970-01-01T00:00:00Z, up to the end of 9999-12-28. The random octets are 64, in hex: from the front, the new key, 16 for the
ticket and 16 for the reply.

The reply to a request is a line, its octets also after their length in four octets:

    reply <hex>                  an AS-REP, a TGS-REP or a KRB-ERROR

The last line is one of these:

    end <n>                      the input is at its end: n requests were answered
    bad line <n>                 line n is not in the table, or not where it may be
    long line <n>                line n has more than 1048576 octets, or the input more than 1073741824
    stopped <n>                  memory ran out after the replies to n requests

A line is bad, too, if it names a principal or a service again or a realm that is trusted already, has a key of another length
than the type's (16 octets for 17, 32 for 18), or routes to a realm that is not trusted.

Exit status:

    0    the whole input was answered
    2    the words are not a command
    3    a bad line
    4    a read failed
    5    a write failed
    6    memory ran out
    7    a long line
";
