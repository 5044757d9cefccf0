//! Laws of the changes by which code is made anew at places: they can be applied, and make of an image the one in which each
//! method and each do-it is the one after. Definitions and lemmas; no program text.
#![tactic(auto)]
