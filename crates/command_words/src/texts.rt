//! Texts of the command line that its parser does not write itself.

/// The version, with the kit that the program was proved with.
pub const VERSION: &str = "0.1.0 (proved with rattle-kit-13f logic dac8208d650f15bf)";

/// What `--cluster` is, where it has to be there.
pub const CLUSTER_HELP: &str =
    "Servers of a cluster, as 127.0.0.1:7000; the cluster's other nodes are found there";

/// What `--plan` of `apply` is.
pub const PLAN_HELP: &str = "A file with the plan, in place of standard input";

/// What `--plan` of `resume` is.
pub const RESUMED_PLAN_HELP: &str =
    "A file with a plan of version 1 or 4, whose moves that are still to be done follow";

/// What `--cluster` is, where it may stand in place of the sizes of an even split.
pub const START_HELP: &str =
    "In place of --nodes and --even: servers of a cluster, as 127.0.0.1:7000, which say who owns the slots";

/// The lines of a script, and an example, which end the help on `rehearse`.
pub const SCRIPT_LINES: &str = "\
A script's first line opens the cluster, and each further line is one of these:

  cluster N                                N nodes, 1 to 8, that share the slots evenly
  cluster N even M                         N nodes, of which the first M own the slots
  at nI WORD ..                            a client's command to the node I
  asking nI WORD ..                        the same, sent right after ASKING
  setslot SLOT importing nS at nI          the slot is to come from the node S
  setslot SLOT migrating nT at nI          the slot is to go to the node T
  setslot SLOT node nO at nI               the slot belongs to the node O
  setslot SLOT stable at nI                the node's two marks of the slot go
  getkeysinslot SLOT COUNT at nI           at most COUNT keys of the slot
  migrate KEY .. at nI to nJ               keys of one slot move from I to J
  reshard-plan V .. end                    the lines of a plan of version 1, 2 or 3 (`reshard verify --help`)
  step                                     sends the plan's next command, and prints it with its reply
  run                                      runs the plan that was verified to its end
  abandon                                  gives the plan up where it is, and leaves its slots open
  resume by BATCH                          arms a plan that closes all open slots, at most BATCH keys at a time
  honest                                   whether each ASKING so far was earned by an ASK

Words are separated by one space; `\"\"` is the empty word, and `\\xHH` a byte. Every call is kept until the end, so
a script takes some 300 bytes of memory a line.

This script                                prints
  cluster 3
  at n0 SET b 1                              +OK
  reshard-plan 1
  move 3300 from n0 to n1 by 10
  end                                        verified 6 commands
  run                                        done 8 commands
  at n0 GET b                                -MOVED 3300 127.0.0.1:7001
  at n1 GET b                                $1 1
";

/// The lines of a plan, and an example, which end the help on `verify`.
pub const PLAN_LINES: &str = "\
A plan's first line is `reshard-plan 1`, `reshard-plan 2` or `reshard-plan 3`, its last line is `end`, and each line
between them is one of these:

  setslot SLOT importing nS at nT          the slot is to come to the node T from the node S
  setslot SLOT migrating nT at nS          the slot is to go from the node S to the node T
  drain SLOT at nS to nT by BATCH          all keys of the slot move from S to T, at most BATCH at a time
  setslot SLOT node nT at nI               the node I is told that the slot is T's
  setslot SLOT stable at nT                in version 3: the slot is not to come to the node T after all
  move SLOTS from nS to nT by BATCH        all of that for each slot: of one, as 3300, or of a range, as 0-99

In version 1 a slot moves at most once; in versions 2 and 3 it may move again, from where it is then. Slots are 0 to
16383, nodes n0 to n7, a batch 1 to 1000. The line that is printed says how many commands the plan stands for, or why
it is refused: a line's number before a fault of the text, or a slot and a command's number after a fault of the plan.

With `--cluster` one more line says how many slots and keys the plan moves, by how many commands at most, and a plan
may also have version 4, which is as 1, or 5, which is as 3: after the first line it has a line `node nI ID` for each
node that it names, up to n254, with the ID of that node's server.

This plan                                  with `--nodes 3` prints
  reshard-plan 1
  move 3300 from n0 to n1 by 10
  end                                        verified 6 commands
";

/// An example, which ends the help on `plan-reshard`.
pub const RESHARD_EXAMPLE: &str = "\
Each source gives its lowest slots, in proportion to what it holds; with `--slots all` each gives all of them. Where
there is no plan, why is printed: 1 NoSource, 2 TooMany (the sources do not hold so many; with all, they hold none) or
3 TargetIsSource.

`reshard plan-reshard --nodes 3 --from n0,n2 --to n1 --slots 100` prints
  reshard-plan 1
  move 0-49 from n0 to n1 by 10
  move 10923-10972 from n2 to n1 by 10
  end
";

/// An example, which ends the help on `plan-rebalance`.
pub const REBALANCE_EXAMPLE: &str = "\
No other plan that gives each node its share moves fewer slots. Where no node that takes part has a weight, 4 NoWeight
is printed.

`reshard plan-rebalance --nodes 3 --weights 2,1,1` prints
  reshard-plan 1
  move 5461-6826 from n1 to n0 by 10
  move 10923-12287 from n2 to n0 by 10
  end
";

/// An example, which ends the help on `plan-drain`.
pub const DRAIN_EXAMPLE: &str = "\
Each slot goes to the node that has the fewest by then, so no node that is given a slot ends more than one above another
that takes some. No slot of another node moves. Where no node is left to take them, 7 NoTarget is printed.

`reshard plan-drain --nodes 3 --from n2` prints
  reshard-plan 1
  move 10923-13653 from n2 to n0 by 10
  move 13654-16383 from n2 to n1 by 10
  end
";

/// What it does and prints, which ends the help on `forget`.
pub const FORGET_EXAMPLE: &str = "\
The servers are surveyed as by `survey`. Where the node owns a slot in the table of a master, a mark of a slot names it,
it has a mark itself, or a replica follows it, `refused: ` and why is printed, with status 1, and no node is told
anything. Else each other node that it lists, masters and replicas, is sent CLUSTER FORGET with its ID; one that does
not know it counts as told. A line says how many were told, after one for each that was not. If one was not, the status
is 1.

A node takes no news of what it has forgotten for a minute, and then hears of it again from a node that was not told:
send that one CLUSTER FORGET with the ID within the minute. The forgotten node still knows the others: shut it down, or
send it CLUSTER RESET.

A password is taken from RESHARD_AUTH of the environment, and a user's name from RESHARD_USER. There is no TLS.

`reshard forget n3 --cluster 127.0.0.1:7000` prints, once all slots of n3 have moved,
  n3 127.0.0.1:7003 is forgotten at 5 nodes
";

/// An example, which ends the help on `serve`.
pub const SERVE_EXAMPLE: &str = "\
Each node listens on its own port, speaks RESP2, and redirects as Redis Cluster does. A worker serves one client after
the other, and further connections wait without a word: give more workers than the pools of all clients have
connections. With `--plan` no port is opened before standard input has ended. Every call is kept until the program ends,
some 550 bytes each. SIGINT ends it at once, without the last line.

`reshard serve --nodes 3 --connections 1 --plan` with this plan on standard input
  reshard-plan 1
  move 3300 from n0 to n1 by 10
  end
prints, while clients such as `redis-cli -c -p 7000` work, lines as these:
  verified 6 commands
  serving 3 nodes from port 7000
  done 8 commands
  closed 11 events
";

/// The lines that are printed, which end the help on `survey`.
pub const SURVEY_EXAMPLE: &str = "\
The masters of the cluster are n0, n1, .. in ascending order of their addresses: the four numbers, then the port. A line
for each has its name, address, ID and how many slots it owns. Then comes a line for each mark of a slot that is on its
way, and last `clean`, or `open` with status 1. A master that failed and has no slots is left out, which a line says.
If there is no survey, `survey refused: ` and why is printed, with status 1. Nothing is changed at the servers.

Lines with two spaces in front say more of the master above them: the ranges of its slots with --slots, its number of
keys with --keys (INFO), and its replicas (CLUSTER REPLICAS). `keys unknown` or `replicas unknown` says that it refuses
to tell them.

With --stranded, and where the last line is `clean`, each master is asked for its keys of the slots that it does not
own. A line for each slot and master that has some follows, with status 1, as `resume` prints it.

With --full it is what `--survey FILE` of the planners, `verify`, `explain` and `draw` reads: the ranges of slots, too.

A password is taken from RESHARD_AUTH of the environment, and a user's name from RESHARD_USER. There is no TLS.

`reshard survey --cluster 127.0.0.1:7000 --slots --keys` prints lines as these:
  n0 127.0.0.1:7000 7725bc93d86928e2f05ec17386101a19ae5d0e67 5461 slots
    slots 0-5460
    keys 1234
    127.0.0.1:7003 3c2e9c1f8b8e2a1c0fb2f6d8f7f9d1a4b5c6d7e8 replica
  n1 127.0.0.1:7001 efdb0c80255d472230358f0caa581ff52e687757 5462 slots
    slots 5461-10922
    keys 0
  n2 127.0.0.1:7002 892c541b5673be64eda6d2cc9b4ba5e1f56fa344 5461 slots
    slots 10923-16383
    keys 56
  clean
";

/// An example, which ends the help on `apply`.
pub const APPLY_EXAMPLE: &str = "\
The servers are surveyed as by `survey`, and the plan is verified by what they say. It runs only if no slot is open.
Each command is sent after the reply to the one before, and nothing after an error or a lost reply. In a plan of version
4 or 5, once a slot's target and source know its new owner, all other masters are notified in parallel. After a MIGRATE
that took longer than it may (IOERR) the plan continues: its slot is settled as by `resume`, and half as many keys get
twice the time. While a node's replicas are too slow to do a command (NOREPLICAS of Valkey) it continues, too, for as
long as --timeout. Standard error has the names of the nodes, then a line a second, and what is open if the plan is not
done. The last line on standard output is one of these:

  done A commands                             the plan has run to its end
  stopped at command A: ..                    with the server's text, or why it gave no answer; status 1
  paused after A commands, no slot is open    the stop file was there before a slot's first command; status 3

A password is taken from RESHARD_AUTH of the environment, and a user's name from RESHARD_USER; neither is printed. No
one else may move slots meanwhile. There is no TLS.

`reshard apply --cluster 127.0.0.1:7000` with this plan on standard input, at three nodes
  reshard-plan 1
  move 3300 from n0 to n1 by 10
  end
prints
  verified 6 commands
  done 8 commands
";

/// An example, which ends the help on `resume`.
pub const RESUME_EXAMPLE: &str = "\
The servers are surveyed as by `survey`. First each open slot is settled: its target is told once more to import it,
connections over which keys may still come late are ended there, and keys that both nodes hold are sent once more. Then
the rest of its move closes it; a move of which only the target was told is taken back. With `--plan` a plan of version
1 or 4 continues: those of its moves follow whose slots are still at their source, and the others are left out. The log
is appended to. Commands are sent as by `apply`, and the same lines are printed; standard error has one more for each
slot that was settled. If no slot is open and no move is left, this line alone is printed, with status 0:

  clean, nothing to resume

A password is taken from RESHARD_AUTH of the environment, and a user's name from RESHARD_USER; neither is printed. No
one else may move slots meanwhile. There is no TLS.

`reshard resume --cluster 127.0.0.1:7000 --plan grow.plan`, where grow.plan has the one move of `reshard apply --help`
at three nodes and was stopped at its MIGRATE, prints lines as these:
  verified 4 commands
  done 6 commands
";

/// An example, which ends the help on `explain`.
pub const EXPLAIN_EXAMPLE: &str = "\
The plan is verified first, as by `verify`, and where it is refused the line that says why is all that is printed, with
status 1. Else that line is followed by one page: how many slots move from which node to which, each node's slots before
and after, which ranges go where, the commands by kind and the calls that they take at most, slots that move more than
once or come back, and what is open if the plan is stopped half way. With `--cluster` the page has the keys of
the slots too, and what each server tells of its memory. The lines of a plan are those of `reshard verify --help`.

With `--json` one line of JSON has the same: {..,\"verdict\":\"verified\"}, or {\"reason\":..,\"verdict\":\"refused\"}.

`reshard explain --nodes 3` of a plan that moves slot 3300 from n0 to n1 prints, among others,
  slots by pair of nodes
    n0 -> n1          1 slot
";

/// An example, which ends the help on `draw`.
pub const DRAW_EXAMPLE: &str = "\
The plan is verified first, as by `verify`. What is printed is an SVG of its own: the 16,384 slots as one band for each
node before the plan and after it, with ribbons from where slots leave to where they land. A plan that is refused is
told on standard error, with status 1, and nothing is drawn. The lines of a plan are those of `reshard verify --help`.

With `--now --cluster` no plan is read: what is there is drawn, with the open slots, which `reshard resume` would
finish.

`reshard draw --nodes 3 < grow.plan > grow.svg` writes a picture that any browser shows.
";
