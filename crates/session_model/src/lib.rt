//! What scripts of refactorings come to in an image: single commands, composites, undo and redo, judged one after the other
//! over a history (Roberts 1999). Definitions over any writing of changed code; no program text runs here.
#![tactic(auto)]
