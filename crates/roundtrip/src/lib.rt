// Both round trips of files, theorems about the definitions of `lingua`, which stand in specs/. The main ones (RoundTrip):
// `write_then_read`: rows that are accepted and written read back as the same rows and model;
// `read_then_write`: an accepted file's rows written again give the same bytes;
// `write_then_read_call`, `read_then_write_call`: the same of the public calls.
#![tactic(auto)]
