// Definitions and theorems only: the minute reading of a day, the range reading, and that they agree.
#![tactic(auto)]
