// The totals of the trials, and how they are printed.
use crate::{Marker, Outcome, Trial};
use std::fmt;

// Of a marker: on how many pools it agreed, on how many it differed, its visits, for how many pools its stack was enough, and the checks of its stack.
#[derive(Clone, Copy, Default)]
pub struct MarkerTotals {
    pub agreed: u32,
    pub differed: u32,
    pub visits: u32,
    pub enough: u32,
    pub checks: u32,
}

// The number of well-formed pools, of their cells, of the kept cells and of the kept points, of malformed pools, and of the words behind the cells of all;
// and the totals of each marker.
#[derive(Clone, Copy, Default)]
pub struct Totals {
    pub well_formed: u32,
    pub cells: u32,
    pub kept: u32,
    pub points: u32,
    pub malformed: u32,
    pub leftover: u32,
    pub reversal: MarkerTotals,
    pub recursive: MarkerTotals,
    pub no_words: MarkerTotals,
    pub one_word: MarkerTotals,
    pub n_words: MarkerTotals,
}

impl fmt::Display for MarkerTotals {
    fn fmt<W: fmt::Write>(&self, f: &mut fmt::Formatter<W>) -> fmt::Result {
        let agreed = self.agreed;
        let differed = self.differed;
        write!(f, "agreed {agreed}, differed {differed}")
    }
}

impl MarkerTotals {
    fn count(&mut self, outcome: Outcome) {
        if outcome.agreed {
            self.agreed = self.agreed.wrapping_add(1);
        } else {
            self.differed = self.differed.wrapping_add(1);
        }
        if let Some(said) = outcome.said {
            self.visits = self.visits.wrapping_add(said.visits);
            self.enough = self.enough.wrapping_add(u32::from(said.enough));
            self.checks = self.checks.wrapping_add(said.checks);
        }
    }
}

impl Totals {
    // A trial, and once for all markers its pool.
    pub fn count(&mut self, trial: Trial, outcome: Outcome) {
        match trial.marker {
            Marker::Reversal => {
                self.count_pool(trial, outcome);
                self.reversal.count(outcome);
            }
            Marker::Recursive => self.recursive.count(outcome),
            Marker::NoWords => self.no_words.count(outcome),
            Marker::OneWord => self.one_word.count(outcome),
            Marker::NWords => self.n_words.count(outcome),
        }
    }

    fn count_pool(&mut self, trial: Trial, outcome: Outcome) {
        self.leftover = self.leftover.wrapping_add(trial.leftover);
        if trial.malformed {
            self.malformed = self.malformed.wrapping_add(1);
        } else {
            self.well_formed = self.well_formed.wrapping_add(1);
            self.cells = self.cells.wrapping_add(trial.pool.cells);
            self.kept = self.kept.wrapping_add(outcome.kept);
            self.points = self.points.wrapping_add(outcome.points);
        }
    }

    pub fn print(&self, rt: &impl Print) {
        let _ = println!(rt; "well-formed pools: {}", self.well_formed);
        let _ = println!(rt; "cells: {}", self.cells);
        let _ = println!(rt; "kept cells: {}", self.kept);
        let _ = println!(rt; "malformed pools: {}", self.malformed);
        let _ = println!(rt;
            "reversal: {}, visits {}",
            self.reversal, self.reversal.visits
        );
        let _ = println!(rt;
            "recursive marker: {}, visits {}",
            self.recursive, self.recursive.visits
        );
        let _ = println!(rt;
            "stack of no words: {}, enough {}",
            self.no_words, self.no_words.enough
        );
        let _ = println!(rt;
            "stack of one word: {}, enough {}",
            self.one_word, self.one_word.enough
        );
        let _ = println!(rt;
            "stack of N words: {}, enough {}",
            self.n_words, self.n_words.enough
        );
        let _ = println!(rt; "checks with no words: {}", self.no_words.checks);
        let _ = println!(rt; "checks with one word: {}", self.one_word.checks);
        let _ = println!(rt; "checks with N words: {}", self.n_words.checks);
        let _ = println!(rt; "words behind the cells: {}", self.leftover);
        let _ = println!(rt; "kept points: {}", self.points);
    }
}
