//! Which classes stand on the chain of a class: the class itself, its superclass, and so on (Goldberg and Robson 1983). Over any type
//! of names.
#![tactic(auto)]
