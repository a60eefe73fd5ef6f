use fault::finding::Finding;
use fault::place::Place;
use std::fmt;

// A list that a call has filled with findings: those from the first place that is still unused are none.
#[derive(Debug, Drop)]
pub struct Findings {
    pub list: Vec<Finding>,
}

impl fmt::Display for Findings {
    fn fmt<W: fmt::Write>(&self, f: &mut fmt::Formatter<W>) -> fmt::Result {
        let kept = self.list.iter();
        for finding in kept.take_while(|finding| finding.place != Place::Nowhere) {
            write!(f, "\nfinding {finding}")?;
        }
        Ok(())
    }
}
