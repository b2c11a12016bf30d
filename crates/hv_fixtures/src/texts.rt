//! The texts of the worked examples: domains, problems and plans.

/// A truck brings packages to places along roads.
pub const TRANSPORT: &[u8] = b"(define (domain transport)\n\
    (:requirements :typing :hierachie)\n\
    (:types truck package - thing thing location - object)\n\
    (:predicates (at ?x - thing ?l - location)\n\
    (in ?p - package ?t - truck) (road ?a ?b - location))\n\
    (:task deliver :parameters (?p - package ?l - location))\n\
    (:task goto :parameters (?t - truck ?l - location))\n\
    (:method m-deliver\n\
    :parameters (?p - package ?t - truck ?a ?l - location)\n\
    :task (deliver ?p ?l)\n\
    :precondition (at ?p ?a)\n\
    :ordered-subtasks (and (goto ?t ?a) (load ?t ?p ?a)\n\
    (goto ?t ?l) (unload ?t ?p ?l)))\n\
    (:method m-drive\n\
    :parameters (?t - truck ?a ?l - location)\n\
    :task (goto ?t ?l)\n\
    :subtasks (drive ?t ?a ?l))\n\
    (:method m-there\n\
    :parameters (?t - truck ?l - location)\n\
    :task (goto ?t ?l)\n\
    :precondition (at ?t ?l)\n\
    :subtasks ())\n\
    (:action drive :parameters (?t - truck ?a ?b - location)\n\
    :precondition (and (at ?t ?a) (road ?a ?b))\n\
    :effect (and (not (at ?t ?a)) (at ?t ?b)))\n\
    (:action load :parameters (?t - truck ?p - package ?l - location)\n\
    :precondition (and (at ?t ?l) (at ?p ?l))\n\
    :effect (and (not (at ?p ?l)) (in ?p ?t)))\n\
    (:action unload :parameters (?t - truck ?p - package ?l - location)\n\
    :precondition (and (at ?t ?l) (in ?p ?t))\n\
    :effect (and (not (in ?p ?t)) (at ?p ?l))))";

/// One package to bring, by one truck.
pub const ONE: &[u8] = b"(define (problem one)\n\
    (:domain transport)\n\
    (:objects t1 - truck p1 - package a b - location)\n\
    (:htn :parameters () :ordered-subtasks (and (deliver p1 b)))\n\
    (:init (at t1 a) (at p1 a) (road a b))\n\
    (:goal (at p1 b)))";

/// The truck loads the package, drives and unloads it.
pub const PLAN1: &[u8] = b"==>\n\
    1 load t1 p1 a\n\
    2 drive t1 a b\n\
    3 unload t1 p1 b\n\
    root 10\n\
    10 deliver p1 b -> m-deliver 11 1 12 3\n\
    11 goto t1 a -> m-there\n\
    12 goto t1 b -> m-drive 2\n\
    <==";

/// Nothing to do in the transport.
pub const NO_TASK: &[u8] = b"(define (problem e) (:domain transport) (:htn :subtasks ()) (:init))";

/// A task that does itself, or nothing.
pub const CHAIN: &[u8] =
    b"(define (domain chain) (:task t) (:method m :task (t) :subtasks (t)) (:method e :task \
    (t) :subtasks ()))";

pub const CHAIN_ONCE: &[u8] = b"(define (problem c) (:domain chain) (:htn :subtasks (t)) (:init))";

/// A method with two parameters that stand in no argument.
pub const WIDE: &[u8] = b"(define (domain wide)\n\
    (:types thing)\n\
    (:predicates (pair ?a ?b - thing))\n\
    (:task t :parameters ())\n\
    (:method m :parameters (?a ?b - thing) :task (t)\n\
    :precondition (pair ?a ?b) :subtasks ()))";

/// The same, and the two are to differ.
pub const WIDE_APART: &[u8] = b"(define (domain wide)\n\
    (:types thing)\n\
    (:predicates (pair ?a ?b - thing))\n\
    (:task t :parameters ())\n\
    (:method m :parameters (?a ?b - thing) :task (t)\n\
    :precondition (pair ?a ?b) :subtasks () :constraints (not (= ?a ?b))))";

/// Three objects for the two.
pub const THREE: &[u8] = b"(define (problem w)\n\
    (:domain wide)\n\
    (:objects o1 o2 o3 - thing)\n\
    (:htn :subtasks (t))\n\
    (:init (pair o3 o3)))";

pub const THREE_WITH_GOAL: &[u8] = b"(define (problem w)\n\
    (:domain wide)\n\
    (:objects o1 o2 o3 - thing)\n\
    (:htn :subtasks (t))\n\
    (:init (pair o3 o3))\n\
    (:goal (pair o1 o1)))";

/// Two actions, and a task without subtasks.
pub const ORDERS: &[u8] = b"(define (domain orders)\n\
    (:task mid :parameters ())\n\
    (:method m-empty :parameters () :task (mid) :subtasks ())\n\
    (:action act-a :parameters ())\n\
    (:action act-c :parameters ()))";

/// The task between the actions.
pub const IN_ORDER: &[u8] = b"(define (problem o)\n\
    (:domain orders)\n\
    (:htn :subtasks (and (l1 (act-a)) (l2 (mid)) (l3 (act-c)))\n\
    :ordering (and (< l1 l2) (< l2 l3)))\n\
    (:init))";

/// Each of two before the other.
pub const CYCLE: &[u8] = b"(define (problem c)\n\
    (:domain orders)\n\
    (:htn :subtasks (and (a (act-a)) (b (act-c))) :ordering (and (< a b) (< b a)))\n\
    (:init))";

/// Twenty times the same, in no order.
pub const TWENTY: &[u8] = b"(define (problem o)\n\
    (:domain orders)\n\
    (:htn :subtasks (and (act-a) (act-a) (act-a) (act-a) (act-a) (act-a) (act-a) (act-a) \
    (act-a) (act-a) (act-a) (act-a) (act-a) (act-a) (act-a) (act-a) (act-a) (act-a) (act-a) \
    (act-a)))\n\
    (:init))";

/// And once more.
pub const TWENTY_ONE: &[u8] = b"(define (problem o)\n\
    (:domain orders)\n\
    (:htn :subtasks (and (act-a) (act-a) (act-a) (act-a) (act-a) (act-a) (act-a) (act-a) \
    (act-a) (act-a) (act-a) (act-a) (act-a) (act-a) (act-a) (act-a) (act-a) (act-a) (act-a) \
    (act-a) (act-a)))\n\
    (:init))";

/// A type that may have no objects.
pub const EMPTY: &[u8] = b"(define (domain empty)\n\
    (:types relic)\n\
    (:predicates (p ?x - relic))\n\
    (:task t :parameters ())\n\
    (:method m :parameters (?g - relic) :task (t) :subtasks ())\n\
    (:action act :parameters ()\n\
    :precondition (forall (?g - relic) (p ?g))))";

/// No relic that exists.
pub const NO_RELIC_EXISTS: &[u8] =
    b"(define (problem a) (:domain empty) (:htn :subtasks (act)) (:init) (:goal (not (exists \
    (?g - relic) (p ?g)))))";

/// An object, but no relic for the method.
pub const NO_RELIC: &[u8] =
    b"(define (problem b) (:domain empty) (:objects x) (:htn :subtasks (t)) (:init))";

pub const RELIC_EXISTS: &[u8] =
    b"(define (problem a) (:domain empty) (:htn :subtasks (act)) (:init) (:goal (exists (?g - \
    relic) (p ?g))))";

/// No relic for the initial network, and the same action in it twenty-one times.
pub const NO_RELIC_FOR_MANY: &[u8] =
    b"(define (problem r) (:domain empty) (:htn :parameters (?g - relic) :subtasks (and (act) \
    (act) (act) (act) (act) (act) (act) (act) (act) (act) (act) (act) (act) (act) (act) \
    (act) (act) (act) (act) (act) (act))) (:init))";

/// Two tasks whose preconditions become true one after the other.
pub const EXCHANGE: &[u8] = b"(define (domain exchange)\n\
    (:types thing)\n\
    (:constants o1 o2 - thing)\n\
    (:predicates (ready ?x - thing) (seen ?x - thing))\n\
    (:task both :parameters ())\n\
    (:task look :parameters (?x - thing))\n\
    (:method m-both :parameters (?u ?v - thing) :task (both)\n\
    :precondition (ready ?u)\n\
    :ordered-subtasks (and (look ?u) (look ?v)))\n\
    (:method m-look :parameters (?x - thing) :task (look ?x)\n\
    :precondition (seen ?x) :subtasks ())\n\
    (:action first :parameters () :effect (and (ready o2) (seen o2)))\n\
    (:action second :parameters ()\n\
    :effect (and (not (seen o2)) (seen o1)))\n\
    (:action last :parameters () :effect (seen o2)))";

pub const EXCHANGE_ONCE: &[u8] = b"(define (problem x)\n\
    (:domain exchange)\n\
    (:htn :subtasks (and (k (both)) (f (first)) (s (second)) (z (last)))\n\
    :ordering (< k z))\n\
    (:init (ready o1)))";

/// An action that deletes an atom and adds it.
pub const FLIP: &[u8] = b"(define (domain flip)\n\
    (:predicates (p))\n\
    (:action flip :parameters () :effect (and (p) (not (p)))))";

pub const FLIP_ONCE: &[u8] = b"(define (problem f)\n\
    (:domain flip)\n\
    (:htn :ordered-subtasks (flip))\n\
    (:init)\n\
    (:goal (p)))";

/// Twenty constants.
pub const LOOK: &[u8] =
    b"(define (domain look) (:constants o1 o2 o3 o4 o5 o6 o7 o8 o9 o10 o11 o12 o13 o14 o15 \
    o16 o17 o18 o19 o20) (:action look :parameters (?x)))";

/// A look at nineteen of them, and at any.
pub const LOOK_AT_ANY: &[u8] =
    b"(define (problem l) (:domain look) (:htn :parameters (?z) :subtasks (and (look o1) \
    (look o2) (look o3) (look o4) (look o5) (look o6) (look o7) (look o8) (look o9) (look \
    o10) (look o11) (look o12) (look o13) (look o14) (look o15) (look o16) (look o17) (look \
    o18) (look o19) (look ?z))) (:init))";

/// A look at each of them.
pub const LOOK_AT_EACH: &[u8] =
    b"(define (problem l) (:domain look) (:htn :parameters (?z) :subtasks (and (look o1) \
    (look o2) (look o3) (look o4) (look o5) (look o6) (look o7) (look o8) (look o9) (look \
    o10) (look o11) (look o12) (look o13) (look o14) (look o15) (look o16) (look o17) (look \
    o18) (look o19) (look o20))) (:init))";

/// A task whose precondition is true in the middle of another.
pub const MIDDLE: &[u8] = b"(define (domain middle)\n\
    (:predicates (on))\n\
    (:task x :parameters ())\n\
    (:task y :parameters ())\n\
    (:method m-x :parameters () :task (x)\n\
    :ordered-subtasks (and (up) (down)))\n\
    (:method m-y :parameters () :task (y)\n\
    :precondition (on) :subtasks ())\n\
    (:action up :parameters () :effect (on))\n\
    (:action down :parameters () :precondition (on) :effect (not (on))))";

pub const MIDDLE_UNORDERED: &[u8] = b"(define (problem m)\n\
    (:domain middle)\n\
    (:htn :subtasks (and (lx (x)) (ly (y))))\n\
    (:init))";

pub const MIDDLE_REVERSED: &[u8] = b"(define (problem m)\n\
    (:domain middle)\n\
    (:htn :subtasks (and (lx (x)) (ly (y))) :ordering (< ly lx))\n\
    (:init))";

/// Two actions without parameters, of which one undoes the other.
pub const TWO: &[u8] = b"(define (domain two)\n\
    (:predicates (p))\n\
    (:action up :effect (p))\n\
    (:action down :precondition (p) :effect (not (p))))";

pub const UP_DOWN: &[u8] = b"(define (problem t)\n\
    (:domain two)\n\
    (:htn :ordered-subtasks (and (up) (down)))\n\
    (:init)\n\
    (:goal (not (p))))";

pub const UP_DOWN_WITHOUT_GOAL: &[u8] = b"(define (problem t)\n\
    (:domain two)\n\
    (:htn :ordered-subtasks (and (up) (down)))\n\
    (:init))";

/// With a goal that is false at the end.
pub const UP_DOWN_FOR_UP: &[u8] = b"(define (problem t)\n\
    (:domain two)\n\
    (:htn :ordered-subtasks (and (up) (down)))\n\
    (:init)\n\
    (:goal (p)))";

pub const UP_DOWN_UP: &[u8] = b"(define (problem t)\n\
    (:domain two)\n\
    (:htn :ordered-subtasks (and (up) (down) (up)))\n\
    (:init)\n\
    (:goal (not (p))))";

/// A problem of nothing, for a domain named d.
pub const PLAIN: &[u8] = b"(define (problem q) (:domain d) (:htn) (:init))";

/// A plan of lines of each form, with comments and what stands outside its markers.
pub const LINES: &[u8] = b"\x01 skipped ( ) ->\n\
    ==> ; the plan begins \x01\n\
    07 (Move a b) ; an action \x01\n\
    \n\
    \t ; no words\n\
    1 2 3\n\
    ROOT 0 007 18446744073709551615\n\
    0 go b -> M1 7 01\n\
    18446744073709551615 (stay) -> m2\n\
    <== \t; the end\n\
    ==>\n\
    \x01 skipped too";

/// All these domains.
pub const DOMAINS: [&[u8]; 11] = [
    TRANSPORT, CHAIN, WIDE, WIDE_APART, ORDERS, EMPTY, EXCHANGE, FLIP, LOOK, MIDDLE, TWO,
];

/// And all these problems.
pub const PROBLEMS: [&[u8]; 24] = [
    ONE,
    NO_TASK,
    CHAIN_ONCE,
    THREE,
    THREE_WITH_GOAL,
    IN_ORDER,
    CYCLE,
    TWENTY,
    TWENTY_ONE,
    NO_RELIC_EXISTS,
    NO_RELIC,
    RELIC_EXISTS,
    NO_RELIC_FOR_MANY,
    EXCHANGE_ONCE,
    FLIP_ONCE,
    LOOK_AT_ANY,
    LOOK_AT_EACH,
    MIDDLE_UNORDERED,
    MIDDLE_REVERSED,
    UP_DOWN,
    UP_DOWN_WITHOUT_GOAL,
    UP_DOWN_FOR_UP,
    UP_DOWN_UP,
    PLAIN,
];
