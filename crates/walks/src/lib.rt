// Walks over a task list: document 01, "The C=D walk" and "Edits on a held plan". Definitions and theorems alone: the code that goes by them is in
// `plan` and `edits`.
#![tactic(auto)]
