// From a record item to a memory card: the words in which a host is handed a receipt (`format`) are those that the card's writer takes (`card`).
// No code of its own. specs/Filing has what is promised. Rests on `card` and `format` for the two definitions.

#![tactic(auto)]
