//! The page on each command, and what the program says of itself.

/// The commands, each with its page.
pub const COMMAND_PAGES: [(&[u8], &[u8]); 28] = [
    (
        b"max",
        b"pns max FILE
Finds the maximal structure: all units that some network can have. Units that
are missing here can never be built.
  FILE  the plant, PNS_problem_v1
Prints units and their names, materials and their names, in file order; or none
if no set of units meets the axioms.
Ends with
  0   The whole text was printed.
  2, 3, 6, 7, 8, 12, 20: see pns help status
Example
  pns max a.pns
  units U1 U2 U3
  materials A B C P
",
    ),
    (
        b"axioms",
        b"pns axioms FILE UNITS
Checks whether some units meet the axioms S1 to S5. It ignores exclusions.
  FILE   the plant, PNS_problem_v1
  UNITS  names separated by commas without spaces, or - for no units
Prints meets.
Ends with
  0   The whole text was printed.
  1   breaks AXIOM NAME: the first broken axiom. S1: no unit has the product.
      S2: a unit makes the raw material, or no unit makes the other material.
      S3: no such unit. S4: no way from the unit to a product. Change UNITS.
  2, 3, 6, 7, 8, 12, 20: see pns help status
Example
  pns axioms a.pns U1,U2
  breaks S1 P
",
    ),
    (
        b"list",
        b"pns list FILE [AFTER COUNT]
Lists the sets of units that meet the axioms and the exclusions, in a fixed
order. To go on, call again with the last token.
  FILE   the plant, PNS_problem_v1
  AFTER  start, or the token after which to go on; start if it is left out
  COUNT  the most lines to print, 1 to 1000000000; 1000 if it is left out
Prints a line TOKEN NAMES for each structure; then end, or more TOKEN if others
follow.
Ends with
  0   The whole text was printed.
  9   bad token: AFTER is neither start nor the token of a structure of this
      plant.
  2, 3, 6, 7, 8, 12, 20: see pns help status
Example
  pns list a.pns start 1
  00000000000000000000000000000005 U1 U3
  more 00000000000000000000000000000005
",
    ),
    (
        b"lint",
        b"pns lint FILE
Warns of what looks odd in a plant and may be a slip. A warning is no fault.
  FILE  the plant, PNS_problem_v1
Prints line L KIND NAME for each warning, in the order of the lines L of FILE,
and in a line after it what KIND means; or clean. KIND is NoNetwork,
UnusedMaterial, NoDemand, DefaultCapacity, Free, FreeRaw, NoLimit, Twins,
FineRates or Alone.
Ends with
  0   The whole text was printed.
  2, 3, 6, 7, 8, 12, 20: see pns help status
Example
  pns lint a.pns
  line 23 UnusedMaterial E
    No unit of the maximal structure uses or makes this material.
  line 24 UnusedMaterial F
    No unit of the maximal structure uses or makes this material.
  line 31 NoNetwork U4
    No network can have this unit: it is outside the maximal structure.
  line 31 Free U4
    All costs of this unit are 0.
  line 32 NoNetwork U5
    No network can have this unit: it is outside the maximal structure.
  line 32 Free U5
    All costs of this unit are 0.
",
    ),
    (
        b"flows",
        b"pns flows FILE UNITS
Finds the least cost of one choice of units and the sizes that have it. It
ignores exclusions.
  FILE   the plant, PNS_problem_v1
  UNITS  names separated by commas without spaces, or - for no units
Prints network NAMES; sizes D Z Z: a size is Z / D / 10^6; cost N: the cost in
one year is N / D / G / 10^18, G the payout period; bound D Y Y: a proof. Or
infeasible and a proof, if these units cannot meet the bounds.
Ends with
  0   The whole text was printed.
  1   breaks AXIOM NAME: the units break an axiom; see pns help axioms.
  4   nonbasic and place lines: a number overflowed 128 bits; the plant need not
      be wrong. Write rates and costs with fewer digits, or tighter bounds and
      capacities, and call again.
  2, 3, 6, 7, 8, 12, 20: see pns help status
Example
  pns flows a.pns U1,U3
  network U1 U3
  sizes 1 20000000 20000000
  cost 75000000000000000000
  bound 1 0 3000000 3000000
",
    ),
    (
        b"solve",
        b"pns solve FILE [BUDGET]
Finds a network of least cost in one year and a tree that proves it.
Keep the text: check, report, graph, table and stable read it.
  FILE    the plant, PNS_problem_v1
  BUDGET  the most nodes, 1 to 1000000; 10k is 10000; 1M if it is left out
Prints a tree text. Lines 2 to 4 are the network; sizes and cost as in pns help
flows. Or infeasible: no network meets the bounds.
Standard error shows how far it is, unless PNS_QUIET is set.
Ends with
  0   The whole text was printed.
  4   a tree text that ends with past, nonbasic and place lines: a number
      overflowed 128 bits; the plant need not be wrong. Write rates and costs
      with fewer digits, or tighter bounds and capacities, and call again.
  5   a tree text that ends with a line spent: BUDGET was reached. The text
      claims the cheapest network found so far, or unknown; only its open leaves
      are not proved yet. Call again with a greater BUDGET.
  2, 3, 6, 7, 8, 12, 20: see pns help status
Example
  pns solve a.pns 100 > tree
",
    ),
    (
        b"show",
        b"pns show FILE [BUDGET]
Finds a network of least cost in one year and shows it to people: pns solve and
pns report in one. It keeps no tree; for a proof to keep use solve.
  FILE    the plant, PNS_problem_v1
  BUDGET  the most nodes, 1 to 1000000; 10k is 10000; 1M if it is left out
Prints what pns report prints of the tree of pns solve: a line that begins with
PROVED or NOT FINISHED, and then the network in tables or the bounds that clash.
Standard error shows how far it is, unless PNS_QUIET is set.
Ends with
  0   PROVED: no network costs less, or no network meets the bounds.
  4   NOT FINISHED: a number overflowed 128 bits; the plant need not be wrong.
      Write rates and costs with fewer digits, or tighter bounds and capacities,
      and call again.
  5   NOT FINISHED: BUDGET was reached. The network is the cheapest one found so
      far. Call again with a greater BUDGET.
  2, 3, 6, 7, 8, 12, 20: see pns help status
Example
  pns show a.pns
",
    ),
    (
        b"check",
        b"pns check FILE TREE
Checks whether a tree proves its claim. It uses nothing else of the search, and
trusts nobody.
  FILE  the plant, PNS_problem_v1
  TREE  a tree text, as solve prints it
Prints accepted: the network of the claim costs least, or there is none, as
claimed.
Ends with
  0   The whole text was printed.
  1   refused claim WHY, refused head K WHY, or refused node N WHY: the tree
      does not prove its claim on this plant. K counts lines of its head from
      0. A tree with status 4 or 5 has open leaves and is refused (unknown or
      open): solve with a greater budget.
  10  tree line L KIND: line L of TREE has a fault; pns help KIND explains it.
      Print the text again.
  2, 3, 6, 7, 8, 12, 20: see pns help status
Example
  pns check a.pns tree
  accepted
",
    ),
    (
        b"table",
        b"pns table FILE TREE
Prints the network of the claim as CSV for a spreadsheet. This proves nothing.
  FILE  the plant, PNS_problem_v1
  TREE  a tree text, as solve prints it
Prints unit,size_e6,fix_e6 and a line for each unit; an empty line;
material,kind,flow_e12 and a line for each material. Sizes are in millionths,
flows in 10^-12, fractions as N/D.
Ends with
  0   The whole text was printed.
  1   refused claim WHY: the claim has no network (unknown), or its network
      breaks an axiom (axiom) or an exclusion (exclusion), or its sizes break a
      bound (flows), or its cost is wrong (cost), or a number is too large
      (sum). Is FILE the plant that TREE was made for?
  10  tree line L KIND: line L of TREE has a fault; pns help KIND explains it.
      Print the text again.
  2, 3, 6, 7, 8, 12, 20: see pns help status
Example
  pns table a.pns tree
  unit,size_e6,fix_e6
  U1,20000000,10000000
  U3,20000000,5000000

  material,kind,flow_e12
  A,raw_material,-20000000000000
  C,intermediate,0
  P,product,20000000000000
",
    ),
    (
        b"report",
        b"pns report FILE TREE
Says what the tree proves, and shows the network of its claim to people: units,
materials and money in one year. Headings have the units of measure of FILE.
  FILE  the plant, PNS_problem_v1
  TREE  a tree text, as solve prints it, or a rank text, as rank prints it
Prints a line that begins with PROVED (check accepts the tree), NOT FINISHED
(nodes are open) or NOT PROVED (node N or head K fails, why); a table of units,
one of materials and one of sums. Costs are above 0, incomes below; numbers with
more than 6 digits show 6. limit names the bound that an amount is at: max, min,
fixed (both), idle (built, but of size 0), or UNBOUNDED?, at 1000000000.
marginal is what one more of a net amount costs while these units stay. Above 0
one more of a demand costs it, and one more of a raw material at max saves it;
below 0 one more of a limit, as on CO2, saves it; 0 for a by-product left over.
For a unit it is what one more of its size saves. It is - if a number overflows.
NOT FINISHED says, if each open node has a bound, what no network costs less
than (rounded down), and the gap to the best one in per cent (rounded up).
If no network meets the bounds, those that clash follow: what the multipliers of
the first ten refuted leaves use.
Of a ranking a table of its networks comes first: what each costs above the best
one, the units that it takes in (+) and leaves out (-) against it, and those of
size 0. PROVED means then that rankcheck accepts; all after it is the best one.
Ends with
  0   The whole text was printed. Line 1 says what is proved.
  1   refused claim WHY: the network of the claim breaks an axiom (axiom) or an
      exclusion (exclusion), or its sizes break a bound (flows), or its cost is
      wrong (cost), or a number is too large (sum). Is FILE the plant that TREE
      was made for? refused network K WHY: network K of a ranking fails so.
  10  tree line L KIND: line L of TREE has a fault; pns help KIND explains it.
      Print the text again.
  2, 3, 6, 7, 8, 12, 20: see pns help status
Example
  pns report a.pns tree
",
    ),
    (
        b"json",
        b"pns json FILE TREE
Says what pns report says, as one JSON object for programs.
  FILE  the plant, PNS_problem_v1
  TREE  a tree text, as solve prints it, a rank text, as rank prints it, or a
        table of pns stable FILE TREE
Prints the keys verdict (proved, not finished or not proved, then with the node
that fails and why) and claim; low and gap, the lower bound and the gap of pns
report, a fraction here, or null; if the claim has a network, also counts,
payout_period, units, materials, money, paid_once and left_out. Each number is
there twice: value has 17 digits, exact is a fraction; both are null if it
overflows 128 bits. A line has one unit or one material.
Of a tree with a head the key head has the line of it that fails, or null.
Of a rank text claim is ranking or alternatives, asked says how many were
wanted, and networks has place, cost, above, share_above, taken_in, left_out,
idle of each. The keys from counts on are those of the best one.
Of a table claim is ranges, and ranges has kind, name, from, now and to of each
row, from_limit, to_limit (true if that end is limit) and finished (false if an
end is ?). An end that is no number is null. Nothing of a table is judged: run
pns stable again for the proof.
Ends with
  0   The whole text was printed. The verdict says what is proved.
  1   refused claim WHY, refused network K WHY: as of pns report
  10  tree line L KIND: line L of TREE has a fault; pns help KIND explains it.
      Print the text again.
  2, 3, 6, 7, 8, 12, 20: see pns help status
Example
  pns json a.pns tree
",
    ),
    (
        b"graph",
        b"pns graph FILE
pns graph FILE TREE [network]
Prints the maximal structure as a graph for Graphviz, with TREE also the network
of its claim. With the word network after TREE only the network is in the graph.
The program itself draws nothing.
  FILE  the plant, PNS_problem_v1
  TREE  a tree text, as solve prints it, or a rank text, as rank prints it
Prints DOT text. Raw materials are houses, products have a double line, units
are boxes. Arcs show rates that are not 1. With TREE they show flows, and are
wider for more flow; a unit shows its size and its costs, a material what is
bought or left over of it, its price and the money. What is at a limit is
orange, what is left out grey; a unit of size 0 has a broken line. A raw
material with more than four users is drawn at each of them, and so is another
with more than four users in the network. A pointer on a part shows its numbers
in FILE. Numbers with more than six digits show six, but always their whole
part. Of a ranking the best network is drawn, and a table above it has all: what
each costs, what that is above the best one, and the units that it takes in (+)
and leaves out (-) against it.
Ends with
  0   The whole text was printed.
  1   refused claim WHY, refused network K WHY, with TREE only: as in pns help
      report. A ranking without a network is refused as unknown.
  10  tree line L KIND: line L of TREE has a fault; pns help KIND explains it.
      Print the text again. With TREE only.
  2, 3, 6, 7, 8, 12, 20: see pns help status
Example
  pns graph a.pns tree | dot -Tsvg > a.svg
",
    ),
    (
        b"stable",
        b"pns stable FILE TREE KIND NAME [BUDGET]
pns stable FILE TREE [BUDGET]
Finds how far one price or cost may move while the network of the claim still
costs least. Without KIND and NAME: each price and each cost of the network.
  FILE    the plant, PNS_problem_v1
  TREE    a tree text, as solve prints it
  KIND    price, fix or proportional
  NAME    a material for price, a unit for fix and proportional
  BUDGET  the most nodes, 1 to 1000000; 10k is 10000; 1M if it is left out
Prints from V, then below and a network that is cheaper under V, or below limit;
to V, then above in the same way. V is in millionths.
Without KIND and NAME it prints a table with numbers as in FILE: the two ends,
or limit for the limit of the values, or ? if a search stopped.
Standard error shows how far it is, unless PNS_QUIET is set.
Ends with
  0   The whole text was printed.
  1   refused claim WHY: as in pns help report.
  4   at V, then a tree text or a place line: a number overflowed 128 bits; the
      plant need not be wrong. Write rates and costs with fewer digits, or
      tighter bounds and capacities, and call again.
  5   at V, then a tree text: BUDGET was reached. Call with a greater BUDGET.
  10  tree line L KIND: line L of TREE has a fault; pns help KIND explains it.
      Print the text again.
  13  not best, then a cheaper network: solve again.
  14  unknown name: NAME is no material (price) or no unit (fix, proportional).
  2, 3, 6, 7, 8, 12, 20: see pns help status
Example
  pns stable a.pns tree fix U2 100
  from 0
  below limit
  to 1000000000000000
  above limit
",
    ),
    (
        b"edit",
        b"pns edit FILE SCRIPT
Applies a script of edits to a plant. FILE stays as it is.
  FILE    the plant, PNS_problem_v1
  SCRIPT  an edit script, PNS_edits_v1
Prints the plant after the edits, in canonical form: defaults are written out,
measurement units and remarks are not kept.
Ends with
  0   The whole text was printed.
  11  script line L KIND: line L of SCRIPT has a fault; pns help KIND explains
      it. Mend the line.
  2, 3, 6, 7, 8, 12, 20: see pns help status
Example
  printf 'file_type=PNS_edits_v1\\nremove_unit U2\\n' > without
  pns edit a.pns without > b.pns
",
    ),
    (
        b"undo",
        b"pns undo FILE SCRIPT
Writes the script that leads from the edited plant back to FILE.
  FILE    the plant, PNS_problem_v1
  SCRIPT  an edit script, PNS_edits_v1
Prints an edit script, without remarks.
Ends with
  0   The whole text was printed.
  11  script line L KIND: line L of SCRIPT has a fault; pns help KIND explains
      it. Mend the line.
  2, 3, 6, 7, 8, 12, 20: see pns help status
Example
  pns undo a.pns without
  file_type=PNS_edits_v1
  add_unit 1 U2 0 100 1 1 : B => C
",
    ),
    (
        b"migrate",
        b"pns migrate FILE YEARS
Writes the script that turns the yearly costs of the units into investments over
a payout period. Networks of least cost stay the same.
  FILE   the plant, PNS_problem_v1
  YEARS  the payout period, 1 to 100
Prints an edit script, without remarks; pns edit FILE SCRIPT applies it.
Ends with
  0   The whole text was printed.
  16  has payout: FILE has a payout period or an investment already. out of
      range UNIT: years times a cost of this unit is beyond 10^9; take fewer
      years.
  2, 3, 6, 7, 8, 12, 20: see pns help status
Example
  pns migrate a.pns 10 > invest
",
    ),
    (
        b"expand",
        b"pns expand FILE PLAN
Writes the plant of a plan of several periods as one ordinary plant, which solve
and check read.
  FILE  the plant, PNS_problem_v1
  PLAN  a plan text, PNS_plan_v1
Prints a plant, PNS_problem_v1, without remarks. Unit b0 builds the first unit,
u0.1 runs it in period 1, and so on.
Ends with
  0   The whole text was printed.
  19  plan line L KIND: line L of PLAN has a fault. Mend the line.
  2, 3, 6, 7, 8, 12, 20: see pns help status
Example
  printf 'file_type=PNS_plan_v1\\nperiod\\nperiod\\nprice A 5\\n' > plan
  pns expand a.pns plan > wide.pns
",
    ),
    (
        b"periods",
        b"pns periods FILE PLAN [BUDGET]
Finds the units to build once and to run in several periods, at least cost.
  FILE    the plant, PNS_problem_v1
  PLAN    a plan text, PNS_plan_v1
  BUDGET  the most nodes, 1 to 1000000; 10k is 10000; 1M if it is left out
Prints built NAMES, capacities D C C, cost N (N / D / G / 10^18), and for each
period its units and sizes (X / D / 10^6); or infeasible.
Standard error shows how far it is, unless PNS_QUIET is set.
Ends with
  0   The whole text was printed.
  4   a tree text of the expanded plant: a number overflowed 128 bits; the plant
      need not be wrong. Write rates and costs with fewer digits, or tighter
      bounds and capacities, and call again.
  5   a tree text of the expanded plant: BUDGET was reached. It can be split and
      searched in parts. Call again with a greater BUDGET.
  19  plan line L KIND: line L of PLAN has a fault. Mend the line.
  2, 3, 6, 7, 8, 12, 20: see pns help status
Example
  pns periods a.pns plan 100
",
    ),
    (
        b"make",
        b"pns make NUMBER UNITS
Makes a plant out of a number, to try the program with.
  NUMBER  a number, 0 to 18446744073709551615; the same one makes the same plant
  UNITS   how many units, 1 to 128
Prints a plant, PNS_problem_v1.
Ends with
  0   The whole text was printed.
  2, 7, 8, 20: see pns help status
Example
  pns make 0 12 > made.pns
",
    ),
    (
        b"trial",
        b"pns trial NUMBER UNITS [BUDGET]
Makes the plant of pns make NUMBER UNITS, solves it and sums up.
  NUMBER  a number, 0 to 18446744073709551615; the same one makes the same plant
  UNITS   how many units, 1 to 128
  BUDGET  the most nodes, 1 to 1000000; 10k is 10000; 1M if it is left out
Prints units, maximal (units of the maximal structure), network NAMES, cost N D
(N / D / 10^18), nodes.
Standard error shows how far it is, unless PNS_QUIET is set.
Ends with
  0   The whole text was printed.
  4   a tree text that ends with past, nonbasic and place lines: a number
      overflowed 128 bits; the plant need not be wrong. Write rates and costs
      with fewer digits, or tighter bounds and capacities, and call again.
  5   a tree text that ends with a line spent: BUDGET was reached. The text
      claims the cheapest network found so far, or unknown; only its open leaves
      are not proved yet. Call again with a greater BUDGET.
  2, 7, 8, 20: see pns help status
Example
  pns trial 0 3 100
  units 3
  maximal 3
  network U0 U1
  cost 125000000000000000000 1
  nodes 4
",
    ),
    (
        b"rank",
        b"pns rank FILE N [BUDGET]
Finds the N best networks, each the cheapest with its units, and a tree that
proves it.
  FILE    the plant, PNS_problem_v1
  N       how many networks, 1 to 1000
  BUDGET  the most nodes, 1 to 1000000; 10k is 10000; 1M if it is left out
Prints a rank text: count N, networks K, three lines for each network from the
cheapest on, then the tree. K is less than N only if there are no more.
Standard error shows how far it is, unless PNS_QUIET is set.
Ends with
  0   The whole text was printed.
  4   a rank text that ends with past, nonbasic and place lines: a number
      overflowed 128 bits; the plant need not be wrong. Write rates and costs
      with fewer digits, or tighter bounds and capacities, and call again.
  5   a rank text that ends with a line spent: BUDGET was reached. The text has
      the networks found so far. Call again with a greater BUDGET.
  2, 3, 6, 7, 8, 12, 20: see pns help status
Example
  pns rank a.pns 2 100 > ranked
",
    ),
    (
        b"alternatives",
        b"pns alternatives FILE N [BUDGET]
Finds the N best networks that really differ, each the cheapest with its units,
and a tree that proves it. None is another one with more units at no lower cost.
  FILE    the plant, PNS_problem_v1
  N       how many networks, 1 to 1000
  BUDGET  the most nodes, 1 to 1000000; 10k is 10000; 1M if it is left out
Prints a rank text as rank does, with a line distinct after count N. K is less
than N only if each other network contains a listed one, and costs no less.
Standard error shows how far it is, unless PNS_QUIET is set.
Ends with
  0   The whole text was printed.
  4   a rank text that ends with past, nonbasic and place lines: a number
      overflowed 128 bits; the plant need not be wrong. Write rates and costs
      with fewer digits, or tighter bounds and capacities, and call again.
  5   a rank text that ends with a line spent: BUDGET was reached. The text has
      the networks found so far. Call again with a greater BUDGET.
  2, 3, 6, 7, 8, 12, 20: see pns help status
Example
  pns alternatives a.pns 2 100 > apart
",
    ),
    (
        b"rankcheck",
        b"pns rankcheck FILE RANK
Checks whether a rank text proves its ranking, or its list of alternatives.
  FILE  the plant, PNS_problem_v1
  RANK  a rank text, as rank and alternatives print it
Prints accepted.
Ends with
  0   The whole text was printed.
  1   refused network K WHY, or refused node N WHY: the text does not prove its
      list on this plant. Was it printed with status 0, and for this FILE?
  10  tree line L KIND: line L of RANK has a fault; pns help KIND explains it.
      Print the text again.
  2, 3, 6, 7, 8, 12, 20: see pns help status
Example
  pns rankcheck a.pns ranked
  accepted
",
    ),
    (
        b"split",
        b"pns split FILE TREE
Lists the open leaves of a tree that solve left with status 4 or 5. Search each
by pns part.
  FILE  the plant, PNS_problem_v1
  TREE  a tree text, as solve prints it
Prints part N INSIDE OUTSIDE for each open leaf, then end.
Ends with
  0   The whole text was printed.
  1   refused claim WHY, or refused node N WHY: the tree is faulty for this
      plant. Is FILE the plant that TREE was made for?
  10  tree line L KIND: line L of TREE has a fault; pns help KIND explains it.
      Print the text again.
  2, 3, 6, 7, 8, 12, 20: see pns help status
Example
  pns solve a.pns 1 > some
  pns split a.pns some
  part 0 00000000000000000000000000000004 00000000000000000000000000000018
  end
",
    ),
    (
        b"part",
        b"pns part FILE INSIDE OUTSIDE [BUDGET]
pns part FILE INSIDE OUTSIDE BUDGET TREE
Searches one open leaf of a tree: the networks with all units of INSIDE and none
of OUTSIDE. With TREE it looks only for networks cheaper than TREE's.
  FILE     the plant, PNS_problem_v1
  INSIDE   the token of the units taken in, from a line of split
  OUTSIDE  the token of the units left out, from the same line
  BUDGET   the most nodes, 1 to 1000000; 10k is 10000; 1M if it is left out
  TREE     a tree text, as solve prints it
Prints a part text for pns merge.
Standard error shows how far it is, unless PNS_QUIET is set.
Ends with
  0   The whole text was printed.
  1   refused claim WHY, with TREE only: its network fails on this plant.
  4   a part text that ends with past, nonbasic and place lines: a number
      overflowed 128 bits; the plant need not be wrong. Write rates and costs
      with fewer digits, or tighter bounds and capacities, and call again.
  5   a part text that ends with a line spent: BUDGET was reached. The text
      claims the cheapest network found so far, or unknown; only its open leaves
      are not proved yet. Call again with a greater BUDGET.
  10  tree line L KIND: line L of TREE has a fault; pns help KIND explains it.
      Print the text again. With TREE only.
  17  bad node: INSIDE or OUTSIDE is no token of this plant, or the node is not
      sound. Take both from one line of split.
  2, 3, 6, 7, 8, 12, 20: see pns help status
Example
  pns part a.pns 00000000000000000000000000000004 \\
    00000000000000000000000000000018 100 > apart
",
    ),
    (
        b"merge",
        b"pns merge FILE TREE PART
pns merge FILE TREE PART PART ..
Puts searched parts back into their tree, in any order. If there are several, a
line that refuses one names its file.
  FILE  the plant, PNS_problem_v1
  TREE  a tree text, as solve prints it
  PART  a part text, as part prints it
Prints a tree text. When the parts of all leaves are in, each printed with
status 0, pns check accepts it.
Ends with
  0   The whole text was printed.
  1   refused claim WHY or refused node N WHY: TREE is faulty for this plant;
      refused part ..: PART is.
  10  tree line L KIND or part line L KIND: the text has a fault at that line.
      Print it again.
  18  no leaf: no open leaf of TREE is the node of PART. Does PART belong to
      TREE, and is it not merged yet?
  2, 3, 6, 7, 8, 12, 20: see pns help status
Example
  pns merge a.pns some apart > tree
",
    ),
    (
        b"help",
        b"pns help
pns help TOPIC
Lists the commands, or explains one topic. --help and -h do the same; after the
first word of a command they print its page, whatever follows.
  TOPIC  the first word of a command, plant, status, or the KIND of a fault
Prints a text of one screen.
Ends with
  0   The whole text was printed.
  2, 7, 8, 20: see pns help status
Example
  pns help solve
",
    ),
    (
        b"version",
        b"pns version
Shows which program this is. --version and -V do the same.
Prints pns and its version; the formats that it reads and prints.
Ends with
  0   The whole text was printed.
  2, 7, 8, 20: see pns help status
Example
  pns version
  pns 0.1.0
  PNS_problem_v1 PNS_tree_v1 PNS_edits_v1 PNS_rank_v1 PNS_part_v1 PNS_plan_v1
",
    ),
];

/// The page on statuses, those that all commands share.
pub const STATUS_PAGE: &[u8] = b"The status is what the shell shows with: echo $?
Answers go to standard output, the reasons for no answer to standard error.

  0   the whole text of the command was printed.
  2   usage: the words fit no form of pns help, or a number is beyond its limit.
      Nothing was read. Compare with pns help COMMAND.
  3   problem line L KIND: line L of FILE has a fault of this kind, the first
      one. pns help KIND explains it. Mend the line, call again. If L is after
      the last line, no material is a product.
  6   read fault NAME: this file cannot be read. Look at its path and its
      rights.
  7   write fault: an output took no more, so only the front of the text was
      printed. Make room and call again.
  8   memory: there was not enough. Standard output has only the front of the
      text. Free some, or take a smaller plant or budget.
  12  too long NAME: the file has more bytes than its limit, 268,435,456 for a
      TREE, RANK or PART and 4,194,304 for the others.
  20  nothing: a word is not UTF-8.

pns help COMMAND explains the other statuses: 1 refuses what was given, 4 and 5
are searches that did not finish, 9, 10, 11, 13, 14 and 16 to 19 name a word or
a line that does not fit.
";

/// The commands on one screen.
pub const OVERVIEW: &[u8] =
    b"pns: which units of a plant to build? Exact answers, with proofs (P-graph).
A FILE is a plant. Answers go to standard output, faults to standard error.

  max FILE, lint FILE            the maximal structure; what looks odd in FILE
  axioms FILE UNITS              do these units meet the axioms S1 to S5?
  list FILE [AFTER COUNT]        those that do; AFTER is start at first
  flows FILE UNITS               the least cost of these units, and their sizes
  solve FILE [BUDGET]            a network of least cost and its proof: a TREE
  show FILE [BUDGET]             the same for people: what is proved, in tables
  check FILE TREE                does the tree prove what it claims?
  report FILE TREE               the network of TREE; for programs: table, json
  graph FILE, graph FILE TREE [network]   for Graphviz: the plant, or a network
  rank FILE N [BUDGET]           N best networks; see alternatives, rankcheck
  stable FILE TREE [BUDGET]      how far each price and each cost may move
  edit FILE SCRIPT               the plant after edits; the way back: undo
  migrate FILE YEARS             the script from yearly costs to investments
  periods FILE PLAN [BUDGET]     one design for several periods; see expand
  part FILE INSIDE OUTSIDE [BUDGET]     a part of a search; see split and merge
  make NUMBER UNITS              a made-up plant; trial solves it
  help TOPIC, version            a command, plant, status, a KIND; which program

Begin:  pns help plant    pns solve a.pns > tree    pns check a.pns tree
        pns report a.pns tree               pns graph a.pns tree > a.dot
";

/// The program, its version, and the formats of its files.
pub const VERSION: &[u8] = b"pns 0.1.0
PNS_problem_v1 PNS_tree_v1 PNS_edits_v1 PNS_rank_v1 PNS_part_v1 PNS_plan_v1
";
