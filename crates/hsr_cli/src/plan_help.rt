//! The help of hsr_plan.

/// What help says behind the options.
pub(crate) const ENDS: &str = "\
A plan is TOML, read from standard input:
  title, ring = [names] or a table [rings] with a list of names for each (a name in two rings is a QuadBox),
  redbox = {name = [stations]}, address = {name = \"02-..\"}, mode = {name = \"N\"}, capacity, life_ms (2000, 0 for
  none), until_us, epoch (0), and moves: \"each send drains\" (where it isn't there), \"each moment drains\", or \"hops\" with
  hop_us = 10: each copy is put at once, and taken and judged 10 us later, or \"wire\" with rate_mbps (100), residence_us (5)
  and switching (\"store\" or \"cut\"): each direction of a link carries one frame at a time. With hops and wires a run has to have
  the tables of --table
  [[stream]]  from (a name or a list), to (a name or an address), for (who needs it), type (\"goose\", \"sv\" or a number), size,
              vlan, priority, appid, control_block, id, data_set, start_us (one or a list), every_us, grow, most_us, smp_rate, asdus,
              count, until_us
  [[event]]   at_us, and one of cut = [two ends], mend = [two ends], off = name, on = name
The scenario is written on standard output.

With --check standard input is a scenario, and nothing is written if it is right; else one line on standard error
says in which line and column which word is wrong, and what is allowed there. It is also played to its end, with
tables of 512 entries: `fault: check N` says that it can't be closed, as where it doesn't end with a drain.

With run the plan is run, and its report written, as hsr_bench run writes it of the scenario (hsr_plan run --help).

With sweep each link and each node is off from a moment on, one by one, and a line says of each run how many sends it
had, how many of these are complete, missed by who needs them and is on, and taken up twice, how many table entries and which budget it
needed, the longest that a frame took, the most that a link carried, and the first doubt, by names; then come the undisturbed
run, the single points of failure, and what is enough for all. --without-events leaves the plan's own events out. With --pairs
each two are off at once too; --part K/N runs each N-th of these cases, from the K-th on. A terminal is told how far it is.

With certify nothing is played: a line says whether, in whatever order copies move, each frame comes exactly once to each
node that it is for (`certified <sends> in any order`), or of what of the plan that is doubted, by names and with its
line (`doubt cut-off mu1@29250us/sv1 bcu1 line 14`; hsr_bench certify --help has the doubts). --within US means only those
orders in which each copy ends less than US microseconds after its send. With --sweep it is also said for each link and each node
off from the start, and with --pairs for each two of them too: who is then cut off from whom in some order.

With report a page of HTML is written that stands alone and prints on A4: the verdict in any order and that of the run, the
network as it is wired, streams with their receivers, load and latency, each link and each node off one by one with who misses
what, the table needed and the budget, and the sum of the plan's text. Its numbers are those of run, sweep and certify: --at-us
and limits are as with sweep, and --within as with certify. --date TEXT stands on the page as it is.

docs/GUIDE.md goes from a first plan to the size of a table; docs/REFERENCE.md has each key and fault.

Status 0: the scenario was written, or is right, or the plan or its run is certified, or all of a sweep is complete with each
single link and node off, and within --limit-load and --limit-latency, or a page was written that tells no doubt. Status 1:
there is none, or it isn't, and one line on standard error says why, with line and column of the word. Status 2: the plan or its
run is doubted, or something of a sweep isn't complete, or is over a limit, or the page tells a doubt. Status 3: the arguments
are refused.

Example: hsr_plan < plan.toml > plan.scenario && hsr_bench run --budget < plan.scenario
         hsr_plan sweep --at-us 5000 < plan.toml
         hsr_plan certify --within 1000 < plan.toml
         hsr_plan report --date 2026-11-28 < plan.toml > plan.html";

/// How help tells of the sizes of tables of a run.
pub(crate) const TABLE_HELP: &str =
    "The tables of the run that will follow (large, if not said); the moves of hops depend on them";

/// How help tells of them where nothing is played.
pub(crate) const ANY_TABLE_HELP: &str =
    "The tables of the nodes: small, large or how many entries (large, if not said)";

/// How help tells of `run`.
pub(crate) const RUN_ABOUT: &str =
    "Runs the plan on standard input (< plan.toml), and reports whether it certifies delivery";

/// What help says behind the options of `run`.
pub(crate) const RUN_ENDS: &str = "\
The report is that of hsr_bench run over the scenario that the plan means, with the same flags and statuses (hsr_bench run
--help has them), and --transcript writes its transcript, for hsr_view and hsr_bench audit. No scenario is written between, so that
a plan may mean more than 16 MiB of one.

Examples: hsr_plan run --network --load --latency --names < plan.toml
          hsr_plan run --transcript < plan.toml | hsr_view picture > run.svg";
