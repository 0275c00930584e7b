// What a book stands for after its calls, and what holds of the plans of two books that match.
#![tactic(auto)]
