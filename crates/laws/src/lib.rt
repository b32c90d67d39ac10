// Laws of the definitions of `lingua`, for any body, list, rows and store; they stand in specs/. The main ones:
// `unary_sound`, `binary_sound` (Sound): where both halves of an operation pass, the result fits the result's body;
// `length_cells`, `select_cells` and the like (Lengths, Records, Items): operations on cells are the operations on values;
// `determined` (Determined): the cells of a fitting value determine it;
// `cells_set`, `flag_set`, `yoke_set_lem` (Stores): a store or a yoke change changes its own part of the memory alone;
// `run_no_type_error` (Classes): no number is in both classes of errors.
#![tactic(auto)]
