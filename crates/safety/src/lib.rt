// Theorems about runs and the type check, of the definitions of `lingua` alone. They stand in specs/, bottom up:
// evaluation gives values that fit, and every run keeps its variables (Fitting, Stored, Runs, Invariant, Named, Memory);
// what acceptance shows of a profile (Sections, Forest, Accepted, Sizes, Limited) and of whose variables its rows name (Scoped,
// ProfileScopes, NodeRows); every body is well-formed (Formed, FormedEntries, FormedRuns);
// the type check is sound (Checked, Derivation, RunErrors, TypeSound, Quiet, Programs, Passed); which fault it names (Faults, FaultRows),
// and that it passes what the check in order of evaluation passes (Former, SamePasses); its entries, one for each expression row, and the
// layout table (Layout, EntryRows, Once, RowRules, EveryRow); steps (Steps); what fails is met (Failures, Recorded); the run without
// bodies is the run (Erasure, ErasedSteps, ErasedRuns); and both runs of a passed pair of files (TwoRuns), with a pair of which every
// clause speaks (Witness).
#![tactic(auto)]
