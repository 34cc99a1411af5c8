// Node tables, the sets of joint events and record lists: what is refused, in the order of document 01's table and of 02, and what stands in
// a node. `check_table` answers the first of the refusals 1 to 9, 22 and 23, `check_records` of 10 to 13, by whether the records are lent
// whole or as a beginning; the parts of both that the flow file's reader and writer want by themselves are public too. The definitions that
// the contracts cite are in specs/. Nothing is written here but marks of the function's own, and no lent slice is changed.
#![tactic(auto)]

ghost use Rattle.std.specs.Prelude.{◌≡◌, Ok, IfSome, true, false, cond, ◌&&◌, ◌+◌, ◌*◌, ◌-◌, ◌<◌, ◌≤◌, eqb, ltb, leb, length, get_or, set};
ghost use Rattle.std.specs.Bool.{xor};
ghost use Rattle.flow.specs.declared.Extent.TheVariants.{Whole, Beginning};
ghost use Rattle.flow.specs.Kinds.{node_of, node, one_of, two_of, form, most_sets, operator_set, set_number};
ghost use Rattle.flow.specs.Forms.{nth_closing, leaf_form, branch_form, children, of_child, field_fault, low_fault, sort_fault, taken_fault, with_child, with_children, Within, Marks, Sorts};
ghost use Rattle.flow.specs.Records.{is_event_number, is_closing_number};
ghost use Rattle.flow.specs.Refusals.{no_record, closings_wanted, node_grounds, child_grounds, count};
ghost use Rattle.flow.specs.Checks.{refused, first, each, table_length_check, sets_check, table_check, nodes_check, values_check, closings_check, records_length_check, records_check};

// A refusal of document 01: its number, and the node or record that it names.
#[derive(Clone, Copy)]
pub struct Refusal {
    pub number: u16,
    pub place: u32,
}

// A record list as it is closed, or a beginning of one: not yet closed, and perhaps empty.
#[derive(Clone, Copy)]
pub enum Extent {
    Whole,
    Beginning,
}

// SKIP, THROW and YIELD, alone or paired with SKIP.
#[derive(Clone, Copy)]
pub enum Simple {
    Skip,
    Throw,
    Yield,
}

// What joins two parts of either sort. A parallel has the number of its set of joint events, or `NO_SET`, as its kind has by the definition
// `kinds` (specs/Kinds.antt).
#[derive(Clone, Copy)]
pub enum Operator {
    Sequence,
    Choice,
    Parallel(u16),
}

// The two children of a node.
#[derive(Clone, Copy)]
pub struct Two {
    pub first: usize,
    pub second: usize,
}

// What a node is, in the calculus's words, with its event or its children. Only `node_of` goes by the number of a kind, with the table of
// each sort, `standard_of` and `compensable_of`.
#[derive(Clone, Copy)]
pub enum Node {
    Event(u16),
    Basic(Simple),
    Standard(Operator, Two),
    Handler(Two),
    Block(usize),
    Pair(Two),
    Compensable(Operator, Two),
    Paired(Simple),
    Unknown,
}

// What is asked of a node's fields and children, of every node (`form`, specs/Kinds.antt): whether there is such a kind, its sort, whether
// its first field is an event, how many children its fields name, and whether these are standard.
#[derive(Clone, Copy)]
pub struct Form {
    pub known: bool,
    pub standard: bool,
    pub event: bool,
    pub kids: u8,
    pub inner: bool,
}

// The children that a node's fields name: none, one, which is the first, or two.
#[derive(Clone, Copy)]
struct Children {
    first: Option<usize>,
    second: Option<usize>,
}

// The closings as records: 01's numbers, which stand in lent lists.
pub const DONE: u16 = 61441;

pub const WITHDRAWN: u16 = 61442;

pub const FAILED: u16 = 61443;

// The cues of the first two, beside 65535, which is no event's (specs/Cues.antt); that of the third is above them.
pub const DONE_CUE: u64 = 281470681804801;

pub const WITHDRAWN_CUE: u64 = 281470681804802;

pub const MOST_EVENTS: u16 = 256;

// How many sets of joint events there may be, and how many bytes each has. No set has the number behind the last one's.
pub const MOST_SETS: usize = 16;

pub const SET_BYTES: usize = 32;

pub const NO_SET: u16 = 16;

pub const MOST_NODES: usize = 64;

pub const MOST_RECORDS: usize = 256;

// The refusals, by document 01's numbers: `Refusal` has the number that is printed and that theorems compare with the documents' figures,
// so an enum would need a table of them beside it. The public ones others give too: of a count in a flow file, and of room that is too
// short.
pub const NO_NODES: u16 = 1;

const PART_OF_NODE: u16 = 2;

pub const TOO_MANY_NODES: u16 = 3;

const UNKNOWN_KIND: u16 = 4;

const WRONG_FIELD: u16 = 5;

const NOT_LOWER: u16 = 6;

const WRONG_SORT: u16 = 7;

const CHILD_TAKEN: u16 = 8;

const NOBODYS_CHILD: u16 = 9;

pub const NO_RECORDS: u16 = 10;

pub const TOO_MANY_RECORDS: u16 = 11;

const NO_RECORD: u16 = 12;

const WRONG_CLOSINGS: u16 = 13;

pub const NO_ROOM: u16 = 14;

const NO_SUCH_SET: u16 = 22;

pub const WRONG_SETS: u16 = 23;

// A part without children.
fn leaf(standard: bool, event: bool) -> Form
    ensures { result ≡ leaf_form standard event }
{
    Form {
        known: true,
        standard,
        event,
        kids: 0,
        inner: false,
    }
}

// A part whose children are standard or compensable.
fn branch(standard: bool, kids: u8, inner: bool) -> Form
    ensures { result ≡ branch_form standard kids inner }
{
    Form {
        known: true,
        standard,
        event: false,
        kids,
        inner,
    }
}

// The table of the standard kinds without a set, by a node's three numbers, as they stand in a lent table; no other number comes here, so
// the last needs no arm of its own. Single numbers are compiled to a jump, where ranges are a chain of tests.
fn standard_of(kind: u16, first: u16, second: u16) -> Node
    requires { (1 ≤ kind) × (kind ≤ 9) }
    ensures { result ≡ node_of kind first second }
{
    let two = Two {
        first: first as usize,
        second: second as usize,
    };
    match kind {
        1 => Node::Event(first),
        2 => Node::Basic(Simple::Skip),
        3 => Node::Basic(Simple::Throw),
        4 => Node::Basic(Simple::Yield),
        5 => Node::Standard(Operator::Sequence, two),
        6 => Node::Standard(Operator::Choice, two),
        7 => Node::Standard(Operator::Parallel(NO_SET), two),
        8 => Node::Handler(two),
        _ => Node::Block(first as usize),
    }
}

// The table of the compensable ones.
fn compensable_of(kind: u16, first: u16, second: u16) -> Node
    requires { (10 ≤ kind) × (kind ≤ 16) }
    ensures { result ≡ node_of kind first second }
{
    let two = Two {
        first: first as usize,
        second: second as usize,
    };
    match kind {
        10 => Node::Pair(two),
        11 => Node::Compensable(Operator::Sequence, two),
        12 => Node::Compensable(Operator::Choice, two),
        13 => Node::Compensable(Operator::Parallel(NO_SET), two),
        14 => Node::Paired(Simple::Skip),
        15 => Node::Paired(Simple::Throw),
        _ => Node::Paired(Simple::Yield),
    }
}

// The kinds, by a node's three numbers: a range for each sort, and one for the parallels of each that have a set.
fn node_of(kind: u16, first: u16, second: u16) -> Node
    ensures { result ≡ node_of kind first second }
{
    let two = Two {
        first: first as usize,
        second: second as usize,
    };
    match kind {
        1..=9 => standard_of(kind, first, second),
        10..=16 => compensable_of(kind, first, second),
        256..=271 => Node::Standard(Operator::Parallel(kind - 256), two),
        512..=527 => Node::Compensable(Operator::Parallel(kind - 512), two),
        _ => Node::Unknown,
    }
}

// What is asked of a node.
fn form_of(node: Node) -> Form
    ensures { result ≡ form node }
{
    match node {
        Node::Event(_) => leaf(true, true),
        Node::Basic(_) => leaf(true, false),
        Node::Standard(_, _) => branch(true, 2, true),
        Node::Handler(_) => branch(true, 2, true),
        Node::Block(_) => branch(true, 1, false),
        Node::Pair(_) => branch(false, 2, true),
        Node::Compensable(_, _) => branch(false, 2, false),
        Node::Paired(_) => leaf(false, false),
        Node::Unknown => Form {
            known: false,
            standard: false,
            event: false,
            kids: 0,
            inner: false,
        },
    }
}

// The number of the operator's set, if it has one.
fn operator_set(operator: Operator) -> u16
    ensures { result ≡ operator_set operator }
{
    match operator {
        Operator::Sequence => NO_SET,
        Operator::Choice => NO_SET,
        Operator::Parallel(set) => set,
    }
}

// The number of the node's set, if it has one.
fn set_number(node: Node) -> u16
    ensures { result ≡ set_number node }
{
    match node {
        Node::Standard(operator, _) => operator_set(operator),
        Node::Compensable(operator, _) => operator_set(operator),
        _ => NO_SET,
    }
}

// A node's three numbers. That node i is there is asked by each function that goes to it: tables are lent slices, and a struct around one
// would still be asked for the node.
fn kind_at(nodes: &[u16], i: usize) -> u16
    requires { 3 * i + 2 < length nodes.now }
    ensures { result ≡ get_or nodes.now (3 * i) 0 }
{
    nodes[3 * i]
}

pub fn first_at(nodes: &[u16], i: usize) -> u16
    requires { 3 * i + 2 < length nodes.now }
    ensures { result ≡ one_of nodes.now i }
{
    nodes[3 * i + 1]
}

pub fn second_at(nodes: &[u16], i: usize) -> u16
    requires { 3 * i + 2 < length nodes.now }
    ensures { result ≡ two_of nodes.now i }
{
    nodes[3 * i + 2]
}

// What node i is.
pub fn node_at(nodes: &[u16], i: usize) -> Node
    requires { 3 * i + 2 < length nodes.now }
    ensures { result ≡ node nodes.now i }
{
    node_of(kind_at(nodes, i), first_at(nodes, i), second_at(nodes, i))
}

// What is asked of node i.
pub fn form_at(nodes: &[u16], i: usize) -> Form
    requires { 3 * i + 2 < length nodes.now }
    ensures { result ≡ form (node nodes.now i) }
{
    form_of(node_at(nodes, i))
}

fn is_event(number: u16) -> bool
    ensures { result ≡ is_event_number number }
{
    (number >= 1) & (number <= MOST_EVENTS)
}

fn is_closing(number: u16) -> bool
    ensures { result ≡ is_closing_number number }
{
    (number == DONE) | ((number == WITHDRAWN) | (number == FAILED))
}

// 12 of a record.
fn no_record(number: u16) -> bool
    ensures { result ≡ no_record number }
{
    !(is_event(number) | is_closing(number))
}

fn refuse(number: u16, place: usize) -> Result<(), Refusal>
    requires { place < 4294967296 }
    ensures { result ≡ refused number place }
{
    Err(Refusal {
        number,
        place: place as u32,
    })
}

// The children of node i, of which this is asked.
fn children_of(nodes: &[u16], i: usize, asked: Form) -> Children
    requires i_in_bounds { 3 * i + 2 < length nodes.now }
    requires asked_is { asked ≡ form (node nodes.now i) }
    ensures { result ≡ children nodes.now i }
{
    let first = first_at(nodes, i) as usize;
    let second = second_at(nodes, i) as usize;
    Children {
        first: (asked.kids != 0).then_some(first),
        second: (asked.kids == 2).then_some(second),
    }
}

// 22 of a node with this set, where so many are present.
fn no_such_set(set: u16, many: usize) -> bool
    ensures { result ≡ ltb set most_sets && leb many set }
{
    (set < NO_SET) & (many <= set as usize)
}

// 5 of a node with these fields, of which this is asked.
fn wrong_field(asked: Form, first: u16, second: u16) -> bool
    ensures { result ≡ field_fault asked first second }
{
    let no_event = asked.event & !is_event(first);
    let no_child = !asked.event & ((asked.kids == 0) & (first != 0));
    no_event | (no_child | ((asked.kids != 2) & (second != 0)))
}

// 6 of node i with these children.
fn not_lower(i: usize, children: Children) -> bool
    ensures { result ≡ low_fault i children }
{
    children.first.is_some_and(|c| c >= i) | children.second.is_some_and(|c| c >= i)
}

// Whether a child, if there is one, is not of the sort asked for. That children are within is known once 6 is passed, and not of all
// `Children`.
fn sort_differs(sorts: &[bool; 64], child: Option<usize>, standard: bool) -> bool
    requires { IfSome child (λ c. c < 64) }
    ensures { result ≡ of_child child (λ c. xor (get_or sorts.now c false) standard) }
{
    child.is_some_and(|c| sorts[c] != standard)
}

// 7 of a node with these children; the sorts are those of the nodes below it.
fn wrong_sort(sorts: &[bool; 64], children: Children, inner: bool) -> bool
    requires { Within children }
    ensures { result ≡ sort_fault sorts.now children inner }
{
    sort_differs(sorts, children.first, inner) | sort_differs(sorts, children.second, inner)
}

// Whether a child, if there is one, is marked.
fn marked(marks: &[bool; 64], child: Option<usize>) -> bool
    requires { IfSome child (λ c. c < 64) }
    ensures { result ≡ of_child child (λ c. get_or marks.now c false) }
{
    child.is_some_and(|c| marks[c])
}

// Whether the two children are the same.
fn same_child(children: Children) -> bool
    ensures { result ≡ of_child children.second (λ c. of_child children.first (λ b. eqb b c)) }
{
    match (children.first, children.second) {
        (Some(first), Some(second)) => first == second,
        _ => false,
    }
}

// 8 of a node with these children; the marks are those of the nodes below it.
fn child_taken(marks: &[bool; 64], children: Children) -> bool
    requires { Within children }
    ensures { result ≡ taken_fault marks.now children }
{
    marked(marks, children.first) | (marked(marks, children.second) | same_child(children))
}

// Marks a child, if there is one.
fn mark(marks: &mut [bool; 64], child: Option<usize>)
    requires { IfSome child (λ c. c < 64) }
    ensures { marks.new ≡ with_child marks.old child }
{
    if let Some(c) = child {
        marks[c] = true;
    }
}

// Marks these children.
fn mark_children(marks: &mut [bool; 64], children: Children)
    requires { Within children }
    ensures { marks.new ≡ with_children marks.old children }
{
    mark(marks, children.first);
    mark(marks, children.second);
}

// 4 to 8 of node i, with 22. Marks and sorts are those of the nodes below it; if it is fine, it is added.
fn check_node(
    nodes: &[u16],
    i: usize,
    many: usize,
    marks: &mut [bool; 64],
    sorts: &mut [bool; 64],
) -> Result<(), Refusal>
    requires i_in_bounds { 3 * i + 2 < length nodes.now }
    requires i_bound { i < 64 }
    requires marks { Marks nodes.now i marks.old × Sorts nodes.now i sorts.old }
    ensures value { result ≡ first (node_grounds many nodes.now i) }
    ensures children_noted { result ≡ Ok tt → Marks nodes.now (i + 1) marks.new × Sorts nodes.now (i + 1) sorts.new }
{
    let decoded = node_at(nodes, i);
    let asked = form_of(decoded);
    if !asked.known {
        return refuse(UNKNOWN_KIND, i);
    }
    if no_such_set(set_number(decoded), many) {
        return refuse(NO_SUCH_SET, i);
    }
    if wrong_field(asked, first_at(nodes, i), second_at(nodes, i)) {
        return refuse(WRONG_FIELD, i);
    }
    let children = children_of(nodes, i, asked);
    if not_lower(i, children) {
        return refuse(NOT_LOWER, i);
    }
    if wrong_sort(sorts, children, asked.inner) {
        return refuse(WRONG_SORT, i);
    }
    if child_taken(marks, children) {
        return refuse(CHILD_TAKEN, i);
    }
    mark_children(marks, children);
    sorts[i] = asked.standard;
    Ok(())
}

// 9: the lowest node that is nobody's child, the last one aside. The marks are those of all nodes.
fn check_children(nodes: &[u16], marks: &[bool; 64]) -> Result<(), Refusal>
    requires nodes_len_bound { length nodes.now ≤ 192 }
    requires marks { Marks nodes.now (count nodes.now) marks.now }
    ensures { result ≡ first (each (child_grounds nodes.now) 0 (count nodes.now - 1)) }
{
    let others = (nodes.len() / 3).saturating_sub(1);
    match marks[..others].iter().position(|taken| !*taken) {
        Some(i) => refuse(NOBODYS_CHILD, i),
        None => Ok(()),
    }
}

// 4 to 9, with 22, of at most 64 whole nodes (how many there are is asked where places are told, as of records: lists are lent slices),
// where so many sets are present.
pub fn check_nodes(nodes: &[u16], many: usize) -> Result<(), Refusal>
    requires { length nodes.now ≤ 192 }
    ensures { result ≡ nodes_check many nodes.now }
{
    let mut marks = [false; 64];
    let mut sorts = [false; 64];
    for i in 0..nodes.len() / 3 {
        check_node(nodes, i, many, &mut marks, &mut sorts)?;
    }
    check_children(nodes, &marks)
}

// 1 to 3.
pub fn check_table_length(nodes: &[u16]) -> Result<(), Refusal>
    ensures { result ≡ table_length_check nodes.now }
{
    if nodes.len() == 0 {
        return refuse(NO_NODES, 0);
    }
    if nodes.len() % 3 != 0 {
        return refuse(PART_OF_NODE, 0);
    }
    if nodes.len() / 3 > MOST_NODES {
        return refuse(TOO_MANY_NODES, 0);
    }
    Ok(())
}

// 23 of lent sets.
pub fn check_sets(sets: &[u8]) -> Result<(), Refusal>
    ensures { result ≡ sets_check sets.now }
{
    if (sets.len() % SET_BYTES != 0) | (sets.len() > SET_BYTES * MOST_SETS) {
        return refuse(WRONG_SETS, 0);
    }
    Ok(())
}

// 1 to 9, with 23 and 22.
pub fn check_table(nodes: &[u16], sets: &[u8]) -> Result<(), Refusal>
    ensures { result ≡ table_check sets.now nodes.now }
{
    check_table_length(nodes)?;
    check_sets(sets)?;
    check_nodes(nodes, sets.len() / SET_BYTES)
}

// 12, of at most 256 records.
pub fn check_values(records: &[u16]) -> Result<(), Refusal>
    requires { length records.now ≤ 256 }
    ensures { result ≡ values_check records.now }
{
    match records.iter().position(|number| no_record(*number)) {
        Some(i) => refuse(NO_RECORD, i),
        None => Ok(()),
    }
}

// How many closings the root takes.
fn closings_wanted(nodes: &[u16]) -> u16
    requires { 3 ≤ length nodes.now }
    ensures { result ≡ closings_wanted nodes.now }
{
    let form = form_at(nodes, nodes.len() / 3 - 1);
    if form.standard { 1 } else { 2 }
}

// Where the closing behind n others is, if there is one.
fn nth_closing(records: &[u16], n: u16) -> Option<usize>
    ensures value { result ≡ nth_closing records.now n }
    ensures within { IfSome result (λ i. i < length records.now) }
{
    let mut left = n;
    for (i, number) in records.iter().enumerate() {
        if is_closing(*number) {
            if left == 0 {
                return Some(i);
            }
            left -= 1;
        }
    }
    None
}

// 13 of a whole list, of at most 256 records.
fn check_whole_closings(nodes: &[u16], records: &[u16]) -> Result<(), Refusal>
    requires in_bounds { 3 ≤ length nodes.now }
    requires records_len_bound { length records.now ≤ 256 }
    ensures { result ≡ closings_check Whole nodes.now records.now }
{
    match nth_closing(records, closings_wanted(nodes) - 1) {
        Some(i) => {
            if i + 1 == records.len() {
                return Ok(());
            }
            refuse(WRONG_CLOSINGS, i + 1)
        }
        None => refuse(WRONG_CLOSINGS, records.len()),
    }
}

// 13 of a beginning, of at most 256 records: the last closing that the root wants is one too many.
fn check_open(nodes: &[u16], records: &[u16]) -> Result<(), Refusal>
    requires in_bounds { 3 ≤ length nodes.now }
    requires records_len_bound { length records.now ≤ 256 }
    ensures { result ≡ closings_check Beginning nodes.now records.now }
{
    let allowed = closings_wanted(nodes) - 1;
    match nth_closing(records, allowed) {
        Some(i) => refuse(WRONG_CLOSINGS, i),
        None => Ok(()),
    }
}

// 13, of at most 256 records.
pub fn check_closings(nodes: &[u16], records: &[u16], extent: Extent) -> Result<(), Refusal>
    requires in_bounds { 3 ≤ length nodes.now }
    requires records_len_bound { length records.now ≤ 256 }
    ensures { result ≡ closings_check extent nodes.now records.now }
{
    match extent {
        Extent::Whole => check_whole_closings(nodes, records),
        Extent::Beginning => check_open(nodes, records),
    }
}

// 10, of a whole list, and 11.
pub fn check_records_length(records: &[u16], extent: Extent) -> Result<(), Refusal>
    ensures { result ≡ records_length_check extent records.now }
{
    if let Extent::Whole = extent {
        if records.len() == 0 {
            return refuse(NO_RECORDS, 0);
        }
    }
    if records.len() > MOST_RECORDS {
        return refuse(TOO_MANY_RECORDS, 0);
    }
    Ok(())
}

// 10 to 13.
pub fn check_records(nodes: &[u16], records: &[u16], extent: Extent) -> Result<(), Refusal>
    requires { 3 ≤ length nodes.now }
    ensures { result ≡ records_check extent nodes.now records.now }
{
    check_records_length(records, extent)?;
    check_values(records)?;
    check_closings(nodes, records, extent)
}
