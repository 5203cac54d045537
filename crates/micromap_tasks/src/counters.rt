//! Words that are counted, and the documents in which they are.

use micromap::{Map, Set};

/// Counts one more of a word, and returns whether there is room for it.
pub fn count_one<'a>(counts: &mut Map<&'a str, u32, 8>, word: &'a str) -> bool {
    let count = counts.get_or(&word, 0).saturating_add(1);
    counts.put(word, count)
}

/// Counts the words of a text, which stand between white space, or returns `None` if more than 8 are distinct.
pub fn counts_in<'a>(text: &'a str) -> Option<Map<&'a str, u32, 8>> {
    let mut counts: Map<&'a str, u32, 8> = Map::new();
    for word in text.split_whitespace() {
        if !count_one(&mut counts, word) {
            return None;
        }
    }
    Some(counts)
}

/// Finds the word that comes most often, the first of several.
pub fn most_common<'a>(counts: &Map<&'a str, u32, 8>) -> Option<(&'a str, u32)> {
    let mut best: Option<(&'a str, u32)> = None;
    for (word, count) in counts {
        if best.is_none_or(|(_, most)| most < *count) {
            best = Some((*word, *count));
        }
    }
    best
}

/// The documents in which each word is: an inverted index.
pub type Index<'a> = Map<&'a str, Set<u8, 8>, 8>;

/// Adds the words of a document to an index, and returns whether there is room for all.
/// If not, the words before stay in the index.
pub fn add_document<'a>(index: &mut Index<'a>, document: u8, text: &'a str) -> bool {
    for word in text.split_whitespace() {
        let fits = match index.get_mut(&word) {
            Some(documents) => documents.put(document),
            None => {
                let mut documents = Set::new();
                documents.put(document) && index.put(word, documents)
            }
        };
        if !fits {
            return false;
        }
    }
    true
}

/// Makes a set of the documents that have both words.
pub fn documents_with<'a>(index: &Index<'a>, one: &'a str, other: &'a str) -> Set<u8, 8> {
    let mut both = Set::new();
    if let (Some(first), Some(second)) = (index.get(&one), index.get(&other)) {
        for document in first.intersection(second) {
            both.put(*document);
        }
    }
    both
}
