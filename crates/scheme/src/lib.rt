// What a scheme text declares, in bounded tables that allocate nothing.
//
// kind         the kinds of lines that declare a scheme
// terms        subject and object, operands, predicates, actions
// names        names, and the search for one among the entries of a kind
// entries      attributes, objects, policies, queries
// declaration  what one line declares
// policies     the table of policies, and the clauses that are filled into one of them
// draft        a scheme that is being read, line by line
#![tactic(auto)]

pub mod declaration;
pub mod draft;
pub mod entries;
pub mod kind;
pub mod names;
pub mod policies;
pub mod terms;
