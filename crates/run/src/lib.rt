// Runs of one end: what happened to it, and the words for one event. Nothing runs here; see specs/.
#![tactic(auto)]
