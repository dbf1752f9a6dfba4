// Document 01's samples at the edges, proved together as one statement over one table.
#![tactic(auto)]
