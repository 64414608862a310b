//! That no text is without an answer: out of memory is one that the compiler may always give, so the definitions themselves are to leave
//! none out. The functions do nothing: their contracts are the laws, which are proved.
#![tactic(auto)]

ghost use Rattle.text_answers.specs.Answers.{TokensAreDecided, TreesAreDecided, TypesAreDecided, TextsAreDecided, LayoutsAreDecided, TextsAreAnswered, LabelsAreGiven};

/// Each text has tokens, or one of the reasons 1 to 4.
pub fn tokens_are_decided()
    ensures { TokensAreDecided }
{}

/// Each text has a syntax tree, or one of the reasons 1 to 6.
pub fn trees_are_decided()
    ensures { TreesAreDecided }
{}

/// Each syntax tree has right names and a typed tree, or one of the reasons 7 and 8.
pub fn types_are_decided()
    ensures { TypesAreDecided }
{}

/// Each text has a typed tree, or one of the reasons 1 to 8.
pub fn texts_are_decided()
    ensures { TextsAreDecided }
{}

/// Each typed program has a layout, or one of the reasons 9 to 11.
pub fn layouts_are_decided()
    ensures { LayoutsAreDecided }
{}

/// Each text is that of a sound program, or has one of the reasons 1 to 11.
pub fn texts_are_answered()
    ensures { TextsAreAnswered }
{}

/// Each typed program can be given its cost labels.
pub fn labels_are_given()
    ensures { LabelsAreGiven }
{}
