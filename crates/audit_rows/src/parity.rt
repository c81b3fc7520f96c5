//! A PLA of parity, and journals of it.

/// Parity of two inputs.
pub const PARITY: &str = ".i 2\n.o 1\n10 1\n01 1\n.e\n";

/// The lines of a journal of parity, of version 1: four sections of three lines each, and the answer.
pub const JOURNAL: [&str; 17] = [
    "lattice journal 1\n",
    "question 0 1x2\n",
    "71 0 55 56 60 69 70 51 52 65 66 7 14 15 22 23 31 38 39 46 47 1 2 4 28 57 58 0\n",
    "refuted\n",
    "question 0 2x1\n",
    "71 0 54 59 60 65 66 55 56 61 62 4 13 16 20 25 28 37 40 44 49 1 2 7 31 51 52 0\n",
    "refuted\n",
    "question 0 1x3\n",
    "108 0 83 84 85 91 105 106 107 76 77 78 98 99 100 8 15 16 23 24 32 39 40 47 48 56 63 64 71 72 1 2 3 5 29 53 86 87 89 0\n",
    "refuted\n",
    "question 0 3x1\n",
    "108 0 81 89 90 91 99 100 101 82 83 84 92 93 94 5 14 17 21 26 29 38 41 45 50 53 62 65 69 74 1 2 3 8 32 56 76 77 79 0\n",
    "refuted\n",
    "output 0 f0 minimum 2x2\n",
    "x0 x1\n",
    "x1' x0'\n",
    "end\n",
];

/// The text of that journal.
pub const OLD_TEXT: &str = "lattice journal 1
question 0 1x2
71 0 55 56 60 69 70 51 52 65 66 7 14 15 22 23 31 38 39 46 47 1 2 4 28 57 58 0
refuted
question 0 2x1
71 0 54 59 60 65 66 55 56 61 62 4 13 16 20 25 28 37 40 44 49 1 2 7 31 51 52 0
refuted
question 0 1x3
108 0 83 84 85 91 105 106 107 76 77 78 98 99 100 8 15 16 23 24 32 39 40 47 48 56 63 64 71 72 1 2 3 5 29 53 86 87 89 0
refuted
question 0 3x1
108 0 81 89 90 91 99 100 101 82 83 84 92 93 94 5 14 17 21 26 29 38 41 45 50 53 62 65 69 74 1 2 3 8 32 56 76 77 79 0
refuted
output 0 f0 minimum 2x2
x0 x1
x1' x0'
end
";

/// The same journal in version 2.
pub const NEW_TEXT: &str = "lattice journal 2
rails 1048575
question 0 1x2
71 0 55 56 60 69 70 51 52 65 66 7 14 15 22 23 31 38 39 46 47 1 2 4 28 57 58 0
refuted
question 0 2x1
71 0 54 59 60 65 66 55 56 61 62 4 13 16 20 25 28 37 40 44 49 1 2 7 31 51 52 0
refuted
question 0 1x3
108 0 83 84 85 91 105 106 107 76 77 78 98 99 100 8 15 16 23 24 32 39 40 47 48 56 63 64 71 72 1 2 3 5 29 53 86 87 89 0
refuted
question 0 3x1
108 0 81 89 90 91 99 100 101 82 83 84 92 93 94 5 14 17 21 26 29 38 41 45 50 53 62 65 69 74 1 2 3 8 32 56 76 77 79 0
refuted
output 0 f0 minimum 2x2
x0 x1
x1' x0'
refuted 1x2:1 2x1:1 1x3:1 3x1:1
end
";
