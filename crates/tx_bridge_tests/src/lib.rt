//! Tests of the cache of evaluations. Of units that are evaluated by their parts, where an opener opens tags: that the
//! whole is what evaluating it gives. Of refreshes with an opener: what they cost, also after edits, and which parts
//! they leave. Of edits: which units they reach and which parts they renew, also where parts move to other paragraphs;
//! that outcomes are those from nothing, also after a start and with a spare; and which places edits are found to leave
//! unchanged. And what names have after all units.
#![tactic(auto)]

#[cfg(test)]
mod boxes;
#[cfg(test)]
mod buffers;
#[cfg(test)]
mod edits;
#[cfg(test)]
mod ends;
#[cfg(test)]
mod keeping;
#[cfg(test)]
mod moves;
#[cfg(test)]
mod opened;
#[cfg(test)]
mod outcomes;
#[cfg(test)]
mod parts;
#[cfg(test)]
mod series;
#[cfg(test)]
mod shell_edits;
#[cfg(test)]
mod shells;
#[cfg(test)]
mod starts;
#[cfg(test)]
mod ways;
