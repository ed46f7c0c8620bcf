//! The help of hsr_bench.

/// What help says behind the options of `node`.
pub(crate) const NODE_LINES: &str = "\
Each line of standard input, with one space between its words, is one of:
  send <at> <dst> <type> <payload> [<vlan>]   the node sends a frame
  life <at> [<station>]                       the node sends a supervision frame, a redbox also about a station
  arrive <at> <port> <octets>                 octets come to a port
  age <at>                                    the node drops what is expired
where <at> is a moment in milliseconds, or in microseconds with --unit us, <dst> and <station> addresses as
02-00-00-00-00-02, <type> and <vlan> (a VLAN tag's control information) four hexadecimal digits, and
octets are in hexadecimal, - for none. A port is A or B, of a redbox also I, its interlink, and of a
quadbox also C or D, those of its other ring. A quadbox has neither send nor life, address nor mode.

The answers: `sent <number>` or `life <number> <count>`, then by each port the octets that leave there;
`passed` with the egresses up and ports, then the frame that went up, and of a redbox or quadbox by each
port the octets that leave there; `duplicate`, `returned`, `foreign`, `local` (from the interlink to a
station there), `untagged`, `tagged`, `malformed <fault>`; `aged`; `refused <reason>` (1 to the node itself,
2 a reserved type, 3 no step is left, 4 over 1500 octets of payload, 5 about no known station). A redbox
sends to a known station without a number: `sent -`. The last line counts what happened. A bad line, also
one that this kind of node doesn't have, ends the run with status 1.

Examples: echo 'send 0 02-00-00-00-00-02 0800 AABB' | hsr_bench node
          echo 'arrive 0 I 02000000000202000000000A0800AABB' | hsr_bench node --role redbox";

/// How help tells of `run`.
pub(crate) const RUN_ABOUT: &str =
    "Runs the scenario on standard input (< scenario.toml), and reports whether it certifies delivery";

/// What help says behind the options of `run`.
pub(crate) const RUN_ENDS: &str = "\
A scenario is TOML, read from standard input:
  capacity = 64   how many copies wait in each direction of a link, 1 to 4096 (64 if it isn't there)
  unit = \"ms\"     in which it tells moments: ms, or us for microseconds (ms if it isn't there)
  [[node]]        name, role, and by its role: danh and redbox mac, mode (H, N or U; H if it isn't there);
                  quadbox nothing; station macs, a list of at most 16 addresses
  [[link]]        ends, a list of two ends, as [\"n0.B\", \"n1.A\"]: a node's name and the letter of its port
                  (A and B on the ring, I a redbox's interlink, C and D a quadbox's other ring, P a station's)
  [[step]]        do, and by it: clock at; send node, to, type, payload, vlan, from; life node, about;
                  age node; put port; judge port; take link, dir (forth or back); cut link; mend link;
                  inject link, dir, octets; drain nothing. It brings all that is on its way to its end
Nodes, links and steps are counted from 0, as they stand. A name has 1 to 32 small letters, digits and
hyphens. An address is written 02-00-00-00-00-02, a moment as a number of its unit, type and vlan as numbers
(type = 0x0800), payload and octets in hexadecimal. A send's payload, vlan and from (the place among a station's
addresses) and a life's about may be left out.

docs/GUIDE.md is the way in; docs/REFERENCE.md has each key, line and fault, and docs/RULES.md each rule.

Status 0: every frame came exactly once to each node that it was for. Status 2: the run gives reason to
doubt that, named in the last line of the report. Status 1: the run stopped, and one line on standard
error says why.

With --transcript the statuses are the same, and in place of the report comes the transcript: the nodes
and links, the order of the steps at nodes, each node's record with its arrivals and what became of
them, and each link's copies, with all moments in microseconds. `audit` reads it.

With --load, lines before the report's last say how much each direction of a link carried: how many frames and octets on
the wire, the mean in kbit/s from the run's first frame on a link to its last, and the most in a millisecond, with the
moment at which that begins: `load 0.B 1.A frames 2 octets 180 mean 1440 worst-ms 1440 at 0`. Then `load most <kbit/s>
<node>.<port>` names the direction with the worst millisecond. With --latency a line for each node that took up a frame
says how long the slowest took from its send on, and the slowest second copy, each with its send:
`latency 1 frames 2 worst 12 at 0:0 second 36 at 0:0`; then `latency worst <us> <node> at <send>`.

With --deliveries, lines before the report's last say of each send that isn't complete which nodes it was
due at and who missed it (or took it up twice, or strayed), and where copies of it were lost; then how many
sends there are and how many are complete. With --needed a line says how many entries the fullest duplicate
table needed, and the node and place of the first arrival that needed as many: `needed <n> <node> <place>`.

With --budget a line before the report's last says whether this run was within the budget of its tables:
`budget <n>` (yes: each copy came in less than 400 ms, and at most n frames were sent in any 800 ms),
`budget late <node> <place>` (this entry of a node is a copy that came later), `budget crowded <moment>`
(in the 800 ms from this moment on, in microseconds, more frames were sent than a table has entries). None
of the three changes a status.

With --network the last line and the status are of the audit of networks, whatever rings, RedBoxes, QuadBoxes and
stations there are: `certified <n>` where each frame came exactly once to each node that it was for, else its first
doubt: `empty` (nothing was sent), `mode`, `same-address`, `side <link>`, `forgot`, `mistaken` or `numbered-late` with a
node and the place in its record, `cut-off <node> <place> <receiver>` (no way to this receiver lost no copy of that
frame), `unknown-station` with the node and place of a frame to a Station that its RedBox did not know, or `uncovered`
with those of a frame of which nothing is certified (a supervision frame of a Station that is joined with a Station).
Before it stand `unlinked <node>.<port>` for each port on a ring without a link (a chain is certified, but it is not
redundant), and `nobody <node>:<place>` for each frame that no node is for.

With --explain, lines on standard error say what a fault or a doubt means, where it is (line and column of the text,
nodes and ports by their names, moments) and what to do; with --budget also how many entries would be enough. Each begins
with `explain: `. Neither the report nor the status changes.

With --names each line has the names of the scenario's nodes in place of their numbers, and names an entry by its node, its
moment and its place in the node's record, and by the stream of its step, if it has one: `mu1@29250us:117/sv1`. A transcript
stays as it is.

With --csv FOLDER six tables of the run are put into a folder that is there: nodes.csv, links.csv, sends.csv, load.csv,
latency.csv and doubt.csv, each with a line of column names. They come before the report: where one cannot be put, it is
`fault: tables`, and no report is written. docs/REFERENCE.md has each column.

With --open a run that cannot be closed (octets were injected, or a copy is still on its way) is shown as it stands: the
lines of its nodes and links, and `open` as the last line, with status 2. Nothing is audited of it, and it has no tables.

Examples: hsr_bench run < scenario.toml
          hsr_bench run --table small --deliveries --needed --budget < scenario.toml
          hsr_bench run --load --latency < scenario.toml
          hsr_bench run --network --explain < scenario.toml
          hsr_bench run --names --csv tables < scenario.toml
          hsr_bench run --transcript < scenario.toml | hsr_bench audit";

/// How help tells of `threads`.
pub(crate) const THREADS_ABOUT: &str =
    "Runs the scenario on standard input in threads, and reports whether it certifies delivery";

/// What help says behind the options of `threads`.
pub(crate) const THREADS_ENDS: &str = "\
The scenario is that of `run`, without the steps put, take and judge: each linked port has a thread that
takes a copy, judges it and puts what leaves, and after a step clock each node is aged by a thread. The
main thread does the steps, and at a drain and at the end it waits until nothing is on its way. So two
runs may differ in what came first; the report and the status are of the run that was.

The statuses and flags are as with `run`, without --open. `fault: step <i> fine` says that step i is a put, take or judge; then no thread is started. `fault: thread` says that a thread couldn't be started.

Examples: hsr_bench threads < scenario.toml
          hsr_bench threads --transcript < scenario.toml | hsr_bench audit";

/// What help says behind the options of `audit`.
pub(crate) const AUDIT_ENDS: &str = "\
The transcript is one that `run --transcript` wrote with a table of the same size; with --table auto the size is
the one that the transcript tells in its second line. It may be of version 1, which tells moments in milliseconds. Each entry is done anew and compared, links and records are checked
against each other, and the report is that of `run`, with --load, --latency, --deliveries, --needed, --budget, --network,
--explain and --csv too. A transcript has no names: --names FILE takes those of the scenario from which the run came.

Status 0: every frame came exactly once to each node that it was for. Status 2: the run gives reason to
doubt that, named in the last line. Status 1: there is no report, and one line on standard error says
why: `fault: transcript line <n>` (bad, or not what the node answers), `fault: transcript version`,
`fault: transcript end` (it breaks off), `fault: check <n>` (links and records disagree), `fault: names` (FILE is no
scenario of the run), `fault: tables` (the folder is not there, or cannot be written).

Example: hsr_bench audit --names scenario.toml --csv tables < run.transcript";

/// How help tells of `certify`.
pub(crate) const CERTIFY_ABOUT: &str =
    "Says of the scenario on standard input whether it certifies delivery in any order of its copies";

/// What help says behind the options of `certify`.
pub(crate) const CERTIFY_ENDS: &str = "\
The scenario is that of `run`, without the steps put, take, judge and inject, and with a drain behind each send. Nothing is
played. `certified <sends> in any order` says that in whatever order its copies move no step is refused, each order
comes to an end, and each frame comes exactly once to each node that it is for: `run --network` certifies it, and so it
would in any other order. A send's span begins at its step and ends at the next drain. Otherwise the line is the first doubt:

`doubt empty` (nothing is sent), `fine <step>` (a put, take, judge or inject), `open <step>` (no drain comes behind this
send), `mode`, `same-address`, `side <link>` (as with `run --network`), `refused <step>` (some order may refuse it),
`back <step>` (the clock goes back), `late <step>` (400 ms or more pass in this send's span), `crowded <step>` (its span
meets the spans of more sends than a table has entries, its own among them), `wrapped <step>` (a node sends more than 65536
frames), `uncovered <step>` (of this send nothing is certified: it is to a Station's own address, or supervision of a Station
that is joined with a Station), `queue <step>` (more sends are under way than copies may wait on a link), `cut-off <step>
<node>` (on each way to this node a link is down at some time in the send's span). Steps, nodes and links are counted from 0.

With --within US only those orders are meant in which no copy is under way any more at a clock step to a moment US or
more after its send: a span ends there, if that is before the next drain.

With --coarse the steps put, take, judge and inject are left out, and a drain is added at the end; steps are counted in what is left. That
is for scenarios of `hop_us`, whose plan moves each copy.

Status 0: certified. Status 2: doubted. Status 1: the scenario can't be read, and one line on standard error says why.

Examples: hsr_bench certify < scenario.toml
          hsr_bench certify --table small --coarse --within 1000 < plan.scenario";

/// How help tells of the bound of spans.
pub(crate) const WITHIN_HELP: &str =
    "Means only those orders in which each copy ends so many microseconds after its send, 1 to 400000";

/// How help tells that copies aren't moved by the scenario.
pub(crate) const COARSE_HELP: &str =
    "Leaves out the steps put, take, judge and inject, and adds a drain at the end";

/// How help tells of the sizes of tables.
pub(crate) const TABLE_HELP: &str = "Entries of a duplicate table; small is 4, large is 512";

/// How help tells of them where the text may tell the size itself.
pub(crate) const CHOICE_HELP: &str =
    "Entries of a duplicate table; small is 4, large is 512, auto what the transcript tells";

/// How help tells of the names of an audit.
pub(crate) const NAMES_HELP: &str =
    "Has the names of nodes and streams in place of numbers: those of this scenario, of which the run is";
