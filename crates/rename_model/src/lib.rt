//! What renamings demand of an image and what they make of it (Roberts 1999): of classes, selectors and variables. Definitions over any
//! type of names; no program text runs here.
#![tactic(auto)]
