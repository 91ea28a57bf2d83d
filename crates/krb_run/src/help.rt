//! The help text of the program.

pub const HELP: &str = "\
krb_run runs Kerberos acceptors and initiators: it replies to each event of its input with one line of text.

    krb_run serve        reads lines on standard input, and writes the reply to each event before it reads on
    krb_run threads      reads all lines, handles the events on two threads, and then writes all replies
    krb_run demo <n>     makes n events, 1 to 10000, handles them in memory, and writes demo <n> <admitted> <kept>
    krb_run --help       this text
    krb_run --version    the version

Lines, with one space between two fields; a line that is empty or begins with # is only counted:

    skew <seconds>                                 first, once: the clock skew that is allowed, 0 to 86400
    acceptor <id> <number> <host> <service>        an acceptor, and its first sequence number
    key <id> <service> <hex>                       a key of an acceptor, for this service
    initiator <id> <number> <host> <target>        an initiator, and the service that it speaks to, or -
    password <id> <user> <domain> <hex>            the user of a connection, and the password; - for none
    keytab <id> <principal> <type> <hex>           the user of a connection, with a key of the type 17 or 18
    kdc <id> <url>                                 the KDC of a connection
    env <name> <hex>, file <path> <hex>            a variable, a file: KDCs and realms are looked up in them
    event <id> <moment> <random> <flags> <input>   an event of a connection

An id and a number have at most 32 bits. A moment is in microseconds since 1970-01-01T00:00:00Z. The random octets are
64, in hex. Flags are letters, each once, or - for none: D delegate, M mutual, R replay, S sequence, C confidentiality,
K use session key, E DCE style, I integrity, N no integrity. After the first event come only events. Inputs, with - for
no octets:

    token <hex>, start                 a token of the peer; the beginning of an initiator
    reply <hex>, fault <number>        a reply of a KDC; the code with which sending to the KDC failed
    wrap <buffers>, unwrap <buffers>   a message to encrypt, to decrypt
    mic <hex>, verify <hex> <hex>      a payload to sign; a MIC token and its payload

Buffers are fields T:<hex>:<limit>, the token, D:<hex>:<limit>, the data, R:<hex>:<limit>, data that the checksum covers
and that are not encrypted, and S:<hex>:<limit>, a whole message.

Replies:

    ok <hex>, continue <hex>     the connection is established, or goes on; the token for the peer, or -
    ask <protocol> <url> <hex>   send these octets to that KDC: the connection waits for its reply
    buffers <buffers>            the message that was encrypted or decrypted
    mic <hex>, verified          the MIC token; the MIC token is the peer's
    refused <kind> <cause>       the first check that failed: the connection is as it was

The last line is one of these:

    end <admitted> <kept>        the input is at its end: how many events admitted their peer, and how many records are kept
    bad line <n>                 line n is not in the table, or not where it may be
    long line <n>                line n has more than 1048576 octets, or the input more than 1073741824
    stopped <n>                  memory ran out after the replies to n events

With threads, worker 0 has the connections with even ids and worker 1 those with odd ids, over one replay book. They write:

    w <worker> <n> <reply>                event n of the input, and its reply as above: first those of worker 0
    j <place> <worker> <call> <verdict>   a verdict of the replay book, in its order: Admitted, Skew, NotYet, Expired, Replayed

and then the last line. With a bad or a long line, or stopped, only that line is written.

Exit status:

    0    the whole input was answered
    2    the words are not a command
    3    a bad line
    4    a read failed
    5    a write failed
    6    memory ran out
    7    a long line
";
