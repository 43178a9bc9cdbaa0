mod shelves;
