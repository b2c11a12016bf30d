//! What `--help` says of the program and of its commands. It decides nothing.

/// What the program does.
pub const PROGRAM: &str =
    "Judges plans of hierarchical planning problems, with proof that its answers are right";

/// What stands below the commands of the program.
pub const PROGRAM_END: &str =
    "Domains and problems are read in HDDL, and plans with their decomposition trees in\n\
    the format of the International Planning Competition 2020.\n\n\
    Example:\n  hddlv judge domain.hddl problem.hddl plan.txt\n\n\
    Exit status:\n  0  the plan solves the problem, the certificate is right, or the text was printed\n  \
    1  the plan fails, or the certificate is not right\n  \
    2  undecided\n  \
    3  the domain, the problem, the plan or the certificate is rejected\n  \
    4  the command line was not understood, or help was asked for\n  \
    5  a file could not be read, the answer not written, or memory ran out";

/// What the command `judge` does.
pub const JUDGE: &str = "Judge whether a plan solves a problem";

/// What stands below the options of `judge`.
pub const JUDGE_END: &str =
    "Writes one line, of which these are the forms, each with its exit status:\n  \
    solves                           0  the plan solves the problem\n  \
    fails NUMBER NAME [line L]       1  it does not, for this cause, on line L of the plan\n  \
    undecided line L                 2  line L can be matched in more ways than the limit\n  \
    rejected TEXT NUMBER NAME PLACE  3  this text is not written as it should be\n\n\
    With --explain a line follows for root and for each decomposition line of the plan:\n\
    its children in the order of the method's subtasks, the objects of its parameters, and\n\
    the number of actions after which its precondition is tested.\n\n\
    Examples:\n  hddlv judge domain.hddl problem.hddl plan.txt\n  \
    hddlv judge --limit 1000000000 --explain domain.hddl problem.hddl plan.txt";

/// What the command `recheck` does.
pub const RECHECK: &str = "Check the certificate of a plan, without search";

/// What stands below the options of `recheck`.
pub const RECHECK_END: &str =
    "Writes one line, of which these are the forms, each with its exit status:\n  \
    certified                        0  by this certificate the plan solves the problem\n  \
    not certified [line L]           1  by this certificate it does not\n  \
    rejected TEXT NUMBER NAME PLACE  3  this text is not written as it should be\n\n\
    The certificate is what judge --explain writes of a plan that solves its problem, with\n\
    its first line. It says how each line of the plan is matched with its method, so that\n\
    nothing is searched for and there is no limit.\n\n\
    With --misfit the line of the certificate is said that does not fit the plan, where\n\
    the fault is not the plan's own.\n\n\
    Examples:\n  \
    hddlv judge --explain domain.hddl problem.hddl plan.txt > certificate.txt\n  \
    hddlv recheck domain.hddl problem.hddl plan.txt certificate.txt\n  \
    hddlv recheck --misfit domain.hddl problem.hddl plan.txt certificate.txt";

/// What `--limit` is.
pub const LIMIT: &str = "The most ways to match a line of the plan with its method";

/// What `--explain` does.
pub const EXPLAIN: &str = "Write the certificate of a plan that solves its problem";

/// What `--misfit` does.
pub const MISFIT: &str = "Say which line of the certificate does not fit the plan";

/// What the command `print-domain` does.
pub const PRINT_DOMAIN: &str = "Print a domain in its canonical form";

/// What stands below the options of `print-domain`.
pub const PRINT_DOMAIN_END: &str =
    "Domains that say the same are printed alike: names in lower case, each section\n\
    on a line of its own, no comments.\n\n\
    Example:\n  hddlv print-domain domain.hddl";

/// What the command `print-problem` does.
pub const PRINT_PROBLEM: &str = "Print a problem in its canonical form";

/// What stands below the options of `print-problem`.
pub const PRINT_PROBLEM_END: &str =
    "Problems that say the same are printed alike: names in lower case, each section\n\
    on a line of its own, no comments.\n\n\
    Example:\n  hddlv print-problem problem.hddl";

/// What the command `print-plan` does.
pub const PRINT_PLAN: &str = "Print a plan in its canonical form";

/// What stands below the options of `print-plan`.
pub const PRINT_PLAN_END: &str =
    "Plans that say the same are printed alike: the actions first, then root, then the\n\
    decomposition lines, no comments.\n\n\
    Example:\n  hddlv print-plan plan.txt";

/// What the file of these commands is.
pub const FILE: &str = "The text whose canonical form is written";
