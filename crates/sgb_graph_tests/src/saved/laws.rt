// The laws can be called.
use sgb_grammar::{items_law, records_law, spelling_law};
use sgb_text::{cleaning_law, reading_law, texts_read_back};

#[test]
fn of_texts() {
    cleaning_law();
    reading_law();
    texts_read_back();
}

#[test]
fn of_the_grammar() {
    items_law();
    records_law();
    spelling_law();
}
